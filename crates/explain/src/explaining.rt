//! All that stands against a class.

ghost use Rattle.std.specs.Prelude.{◌≡◌, length, slice_index_or, None, IfOk};
ghost use Rattle.use_graph.specs.Uses.{AreUses};
ghost use Rattle.use_graph.specs.steps.Bodies.{IsUseGraph};
ghost use Rattle.explain.specs.Explanations.{Explains};
ghost use Rattle.explain.specs.steps.Known.{IsKnown};

use crate::chains::{first_uses, verdict_of};
use crate::cycles::cycles_of;
use crate::evidences::{Evidences, evidences_of};
use crate::marks::{ShownMarks, shown_marks};
use crate::search::Search;
use initializer_analysis::forced::Forced;
use initializer_analysis::verdict::Verdict;
use program::Program;
use std::alloc::{AllocError, Global};
use use_graph::UseGraph;
use use_graph::class_uses::Uses;

/// What is known of all classes of a program.
#[derive(Drop)]
pub struct Knowledge {
    uses: UseGraph,
    /// By class: another that it uses, by one use or several, and that uses it so.
    cycles: Vec<Option<u32>>,
    /// By class: the first that it uses and that is not accepted.
    first: Vec<Option<u32>>,
    /// By class: where its marks are borne.
    evidences: Evidences,
    /// A search of the graph of calls.
    search: Search,
}

/// The reasons against a class that hold before its initializer is run, and those for which it depends on others.
#[derive(Drop)]
pub struct Explanation {
    /// Its verdict in the end.
    pub verdict: Option<Verdict>,
    pub forced: bool,
    pub marks: ShownMarks,
    /// Another class that it uses, by one use or several, and that uses it so.
    pub cycle: Option<u32>,
    /// The first class that it uses and that is not accepted.
    pub first: Option<u32>,
}

/// The entry at the number of a class.
fn other_at(others: &[Option<u32>], class: u32) -> Option<u32>
    ensures { result ≡ slice_index_or others.now class None }
{
    match others.get(class as usize) {
        Some(other) => *other,
        None => None,
    }
}

impl Knowledge {
    /// What is known of all classes, which have these verdicts in the end.
    ///
    /// # Errors
    /// Where memory runs out.
    pub fn of_program(
        alloc: Global,
        program: &Program,
        verdicts: &[Verdict],
    ) -> Result<Knowledge, AllocError>
        requires { length verdicts.now ≡ length program.now.classes }
        ensures { IfOk result (IsKnown program.now verdicts.now) }
    {
        let uses = UseGraph::of_program(alloc, program)?;
        let cycles = cycles_of(alloc, program, &uses)?;
        let first = first_uses(alloc, program, &uses, verdicts)?;
        let evidences = evidences_of(alloc, program, &uses)?;
        let search = Search::new(alloc, uses.calls.len())?;
        Ok(Knowledge {
            uses,
            cycles,
            first,
            evidences,
            search,
        })
    }

    /// What the initialization of a class may run and use.
    ///
    /// # Errors
    /// Where memory runs out.
    pub(crate) fn uses(
        &self,
        alloc: Global,
        program: &Program,
        class: u32,
    ) -> Result<Uses, AllocError>
        requires { IsUseGraph program.now self.now.uses }
        ensures { IfOk result (AreUses program.now class) }
    {
        self.uses.uses(alloc, program, class)
    }

    /// All that stands against a class, but for a run of its initializer; with the calls that lead to what its code is
    /// marked for, where these are asked for.
    ///
    /// # Errors
    /// Where memory runs out.
    pub fn explain(
        &mut self,
        alloc: Global,
        program: &Program,
        verdicts: &[Verdict],
        forced: &Forced,
        paths: bool,
        class: u32,
    ) -> Result<Explanation, AllocError>
        requires { IsKnown program.now verdicts.now self.old }
        ensures known { IsKnown program.now verdicts.now self.new }
        ensures explains { IfOk result (Explains program.now verdicts.now forced.now paths class) }
    {
        let verdict = verdict_of(verdicts, class);
        let marks = shown_marks(
            alloc,
            program,
            &self.uses,
            &self.evidences,
            &mut self.search,
            paths,
            class,
        )?;
        Ok(Explanation {
            verdict,
            forced: forced.has(class),
            marks,
            cycle: other_at(&self.cycles, class),
            first: other_at(&self.first, class),
        })
    }
}
