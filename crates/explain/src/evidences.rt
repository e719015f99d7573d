//! Where each mark of each class is borne, of all classes at once.

ghost use Rattle.std.specs.Prelude.{◌≡◌, ◌↔◌, ◌⊎◌, ◌≤◌, length, IfOk, OnOk};
ghost use Rattle.std.specs.List.{Contains};
ghost use Rattle.graph.specs.steps.Reverse.{IsReverse};
ghost use Rattle.use_graph.specs.declared.mark.Mark.{Mark as Kind};
ghost use Rattle.use_graph.specs.Uses.{Tells};
ghost use Rattle.use_graph.specs.steps.Bodies.{IsUseGraph};
ghost use Rattle.use_graph.specs.steps.Deeds.{HoldsOfOne};
ghost use Rattle.explain.specs.declared.bearers.VertexBearer.{VertexBearer as Held};
ghost use Rattle.explain.specs.steps.Marking.{AreEvidences, AreSources, AreTold, IsMarking, IsSourceAt, IsSourceOf};

use crate::bearers::{Bearer, Pair, VertexBearer};
use crate::nearest::nearest;
use graph::{Graph, reversed};
use hierarchy::member::DeclaredMember;
use program::Program;
use std::alloc::{AllocError, Global};
use use_graph::body::Told;
use use_graph::mark::{Evidence, Mark};
use use_graph::{UseGraph, start_of};

/// Of each class, by mark, a nearest instruction that bears it, in a method that may run; none where none does.
#[derive(Drop)]
pub(crate) struct Evidences {
    pub(crate) prints: Vec<Option<Evidence>>,
    pub(crate) throws: Vec<Option<Evidence>>,
    pub(crate) monitors: Vec<Option<Evidence>>,
    pub(crate) foreign_write: Vec<Option<Evidence>>,
    pub(crate) foreign_read: Vec<Option<Evidence>>,
    pub(crate) unsupported: Vec<Option<Evidence>>,
    pub(crate) missing: Vec<Option<Evidence>>,
}

/// Adds what is told of an instruction of the method of a vertex, where it is this mark for some class.
fn add_bearer(
    item: Told,
    vertex: usize,
    method: DeclaredMember,
    mark: Mark,
    sources: &mut Vec<VertexBearer>,
) -> Result<(), AllocError>
    ensures { OnOk result ((s : Held) → Contains sources.new.items s
        ↔ (Contains sources.old.items s ⊎ IsSourceOf mark vertex method item s)) }
{
    if item.feature.mark() == mark {
        let at = Evidence {
            class: method.class,
            index: method.index,
            pc: item.pc,
        };
        let field_class = item.feature.field_class();
        sources.push(VertexBearer {
            vertex,
            bearer: Bearer { at, field_class },
        })?;
    }
    Ok(())
}

/// Adds what is told of some instructions of the method of a vertex, where it is this mark for some class.
fn add_bearers(
    told: &[Told],
    vertex: usize,
    method: DeclaredMember,
    mark: Mark,
    sources: &mut Vec<VertexBearer>,
) -> Result<(), AllocError>
    ensures { OnOk result ((s : Held) → Contains sources.new.items s
        ↔ (Contains sources.old.items s ⊎ HoldsOfOne (IsSourceOf mark vertex method) told.now s)) }
{
    for item in told {
        add_bearer(*item, vertex, method, mark, sources)?;
    }
    Ok(())
}

/// Adds what is told of the method of a vertex, if it is one, where it is this mark for some class.
fn add_vertex(
    uses: &UseGraph,
    vertex: usize,
    mark: Mark,
    sources: &mut Vec<VertexBearer>,
) -> Result<(), AllocError>
    ensures { OnOk result ((s : Held) → Contains sources.new.items s
        ↔ (Contains sources.old.items s ⊎ IsSourceAt uses.now mark vertex s)) }
{
    let Some(method) = uses.methods.method(vertex) else {
        return Ok(());
    };
    let Some(body) = uses.body(vertex) else {
        return Ok(());
    };
    add_bearers(&body.told, vertex, method, mark, sources)?;
    Ok(())
}

/// Which vertices of the calls bear a mark for some class, and where.
fn sources_of(alloc: Global, uses: &UseGraph, mark: Mark) -> Result<Vec<VertexBearer>, AllocError>
    ensures { IfOk result (λ sources. AreSources uses.now mark sources.items) }
{
    let mut sources = Vec::new(alloc);
    for vertex in 0..uses.methods.len() {
        add_vertex(uses, vertex, mark, &mut sources)?;
    }
    Ok(sources)
}

/// For each vertex of the calls where a mark is borne that it reaches; with the calls turned round.
fn marking(
    alloc: Global,
    uses: &UseGraph,
    back: &Graph,
    mark: Mark,
) -> Result<Vec<Pair>, AllocError>
    requires small { length uses.now.methods ≤ length uses.now.calls }
    requires back { IsReverse uses.now.calls back.now }
    ensures { IfOk result (λ pairs. IsMarking uses.now mark pairs.items) }
{
    let sources = sources_of(alloc, uses, mark)?;
    let pairs = nearest(alloc, back, &sources)?;
    Ok(pairs)
}

/// Where a mark of a class is borne, by the table of that mark.
fn evidence_of(program: &Program, uses: &UseGraph, pairs: &[Pair], class: u32) -> Option<Evidence>
    requires uses { IsUseGraph program.now uses.now }
    requires len { length pairs.now ≡ length uses.now.calls }
    ensures { (mark : Kind) → IsMarking uses.now mark pairs.now → Tells program.now class mark result }
{
    match start_of(program, uses, class) {
        Some(vertex) => match pairs[vertex].but(class) {
            Some(bearer) => Some(bearer.at),
            None => None,
        },
        None => None,
    }
}

/// Where a mark of each class is borne, by the table of that mark.
fn evidences_in(
    alloc: Global,
    program: &Program,
    uses: &UseGraph,
    pairs: &[Pair],
) -> Result<Vec<Option<Evidence>>, AllocError>
    requires uses { IsUseGraph program.now uses.now }
    requires len { length pairs.now ≡ length uses.now.calls }
    ensures { IfOk result
        (λ evidences. (mark : Kind) → IsMarking uses.now mark pairs.now → AreTold program.now mark evidences.items) }
{
    let mut evidences = Vec::new(alloc);
    for class in 0..program.given_count() {
        evidences.push(evidence_of(program, uses, pairs, class))?;
    }
    Ok(evidences)
}

/// Where a mark of each class is borne.
fn evidences_of_mark(
    alloc: Global,
    program: &Program,
    uses: &UseGraph,
    back: &Graph,
    mark: Mark,
) -> Result<Vec<Option<Evidence>>, AllocError>
    requires uses { IsUseGraph program.now uses.now }
    requires back { IsReverse uses.now.calls back.now }
    ensures { IfOk result (λ evidences. AreTold program.now mark evidences.items) }
{
    let pairs = marking(alloc, uses, back, mark)?;
    let evidences = evidences_in(alloc, program, uses, &pairs)?;
    Ok(evidences)
}

/// Where each mark of each class is borne. It takes time near linear in the program.
///
/// # Errors
/// Where memory runs out.
pub(crate) fn evidences_of(
    alloc: Global,
    program: &Program,
    uses: &UseGraph,
) -> Result<Evidences, AllocError>
    requires { IsUseGraph program.now uses.now }
    ensures { IfOk result (AreEvidences program.now) }
{
    let back = reversed(alloc, &uses.calls)?;
    Ok(Evidences {
        prints: evidences_of_mark(alloc, program, uses, &back, Mark::Prints)?,
        throws: evidences_of_mark(alloc, program, uses, &back, Mark::Throws)?,
        monitors: evidences_of_mark(alloc, program, uses, &back, Mark::Monitors)?,
        foreign_write: evidences_of_mark(alloc, program, uses, &back, Mark::ForeignWrite)?,
        foreign_read: evidences_of_mark(alloc, program, uses, &back, Mark::ForeignRead)?,
        unsupported: evidences_of_mark(alloc, program, uses, &back, Mark::Unsupported)?,
        missing: evidences_of_mark(alloc, program, uses, &back, Mark::Missing)?,
    })
}
