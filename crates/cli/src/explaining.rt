//! The command `explain`: a build in memory, and all that stands against one class, or against each.
ghost use Rattle.std.specs.Prelude.{◌≡◌, ◌↔◌, codes, IfOk, IsTrue};
ghost use Rattle.building.specs.Builds.{patterns_in, text_of};
ghost use Rattle.cli.specs.Explanations.{IsClassOf, IsExplained};
ghost use Rattle.cli.specs.Explanations.{IsExplanationBy, IsExplanationOf, IsExplanationOfClass};
ghost use Rattle.explain.specs.AllTexts.{IsAllText};
ghost use Rattle.options.specs.Classes.{AreClasses, IsForced};
ghost use Rattle.report.specs.Waves.{GiveWaves};

use crate::left_out::add_note;
use crate::requested::asked_build;
use crate::{Building, CommandFault, Explain, Files, Watch, entries_of};
use building::Built;
use explain::{Knowledge, all_text, class_text};
use hierarchy::member::DeclaredMember;
use init_engine::EntryFault;
use initializer_analysis::forced::Forced;
use options::{OptionFault, Patterns, force, parse};
use program::Program;
use std::alloc::{AllocError, Global};
use std::sync::Wait;
use std::thread::Threads;
use use_graph::mark::Evidence;

/// Reads the class files, builds an image, and answers what is to be told of its classes, as the words say.
///
/// # Errors
/// The first refusal: a file, the budget, a class file, linking, a list of patterns, the class, or memory.
pub(crate) fn run<R: Threads + Wait + Sync, F: Files, H: Watch + Sync>(
    rt: &R,
    alloc: Global,
    words: &Explain<'_>,
    files: &mut F,
    watch: &H,
) -> Result<Vec<u8>, CommandFault>
    ensures explained { IfOk result (λ text. IsExplained (F.holds files.old) words.now text.items) }
    ensures same { F.holds files.new ≡ F.holds files.old }
{
    match asked_build(rt, alloc, &words.building, files, watch) {
        Ok(built) => {
            note_left_out(alloc, &built, words.class, watch);
            explanation(alloc, &built, &words.building, words.class)
        }
        Err(refusal) => Err(refusal),
    }
}

/// Notes what is left out where the code of a class is unsupported, if more is to be told. Where memory is refused for
/// it, it is not noted.
fn note_left_out<H: Watch>(alloc: Global, built: &Built, class: &str, watch: &H)
    requires { GiveWaves built.now.image built.now.verdicts }
{
    if watch.wants_more()
        && let Ok(notes) = left_out_in(alloc, built, class)
    {
        watch.note(notes.as_str());
    }
}

/// The line on what is left out where the code of a class is unsupported, if it is and more is to be said.
fn left_out_in(alloc: Global, built: &Built, class: &str) -> Result<String, CommandFault>
    requires { GiveWaves built.now.image built.now.verdicts }
{
    let program = built.image.program();
    let mut notes = String::new(alloc);
    if let Some(at) = unsupported_at(alloc, built, number_of(alloc, program, class)?)? {
        let method = DeclaredMember {
            class: at.class,
            index: at.index,
        };
        add_note(alloc, program, method, Some(at.pc), &mut notes)?;
    }
    Ok(notes)
}

/// An instruction for which the code of a class is unsupported, if it has one.
fn unsupported_at(alloc: Global, built: &Built, class: u32) -> Result<Option<Evidence>, AllocError>
    requires { GiveWaves built.now.image built.now.verdicts }
{
    let program = built.image.program();
    let verdicts = built.verdicts.as_slice();
    let forced = Forced::none(alloc);
    let mut known = Knowledge::of_program(alloc, program, verdicts)?;
    let explanation = known.explain(alloc, program, verdicts, &forced, false, class)?;
    match &explanation.marks.unsupported {
        Some(mark) => Ok(Some(mark.at)),
        None => Ok(None),
    }
}

/// The patterns of a list, if there is one.
fn patterns_of(alloc: Global, list: Option<&str>) -> Result<Patterns, OptionFault>
    ensures { IfOk result (λ patterns. patterns ≡ patterns_in (text_of list.entry)) }
{
    match list {
        Some(list) => parse(alloc, list),
        None => Ok(Patterns::none()),
    }
}

/// The classes that a list forces to run time.
pub(crate) fn forced_by(
    alloc: Global,
    program: &Program,
    list: Option<&str>,
) -> Result<Forced, OptionFault>
    ensures { IfOk result
        (λ forced. AreClasses forced (IsForced program.now.family (patterns_in (text_of list.entry)))) }
{
    let patterns = patterns_of(alloc, list)?;
    force(alloc, program, &patterns)
}

/// The explanation of a build's classes, where those are forced that the words say.
fn explanation(
    alloc: Global,
    built: &Built,
    building: &Building<'_>,
    class: &str,
) -> Result<Vec<u8>, CommandFault>
    requires { GiveWaves built.now.image built.now.verdicts }
    ensures { IfOk result
        (λ text. IsExplanationBy built.now (text_of building.now.run_time) building.now.budget class.now text.items) }
{
    let Ok(forced) = forced_by(alloc, built.image.program(), building.run_time) else {
        return Err(CommandFault::Memory);
    };
    let text = explanation_of(alloc, built, &forced, building.budget, class)?;
    Ok(text)
}

/// The explanation of a build's classes, where these are forced.
fn explanation_of(
    alloc: Global,
    built: &Built,
    forced: &Forced,
    budget: u64,
    class: &str,
) -> Result<Vec<u8>, CommandFault>
    requires { GiveWaves built.now.image built.now.verdicts }
    ensures { IfOk result (λ text. IsExplanationOf built.now forced.now budget class.now text.items) }
{
    if is_all(class) {
        let text = explanation_of_all(alloc, built, forced, budget)?;
        Ok(text)
    } else {
        let text = explanation_of_class(alloc, built, forced, budget, class)?;
        Ok(text)
    }
}

/// Whether words ask for all classes.
fn is_all(class: &str) -> bool
    ensures { IsTrue result ↔ (class.now ≡ codes "all") }
{
    class == "all"
}

/// The explanation of all classes.
fn explanation_of_all(
    alloc: Global,
    built: &Built,
    forced: &Forced,
    budget: u64,
) -> Result<Vec<u8>, AllocError>
    requires { GiveWaves built.now.image built.now.verdicts }
    ensures { IfOk result (λ text. IsAllText built.now.image built.now.verdicts forced.now budget text.items) }
{
    let text = all_text(
        alloc,
        &built.image,
        built.verdicts.as_slice(),
        forced,
        budget,
    )?;
    Ok(text.into_bytes())
}

/// The explanation of the class of a name with dots.
fn explanation_of_class(
    alloc: Global,
    built: &Built,
    forced: &Forced,
    budget: u64,
    class: &str,
) -> Result<Vec<u8>, CommandFault>
    requires { GiveWaves built.now.image built.now.verdicts }
    ensures { IfOk result (λ text. IsExplanationOfClass built.now forced.now budget class.now text.items) }
{
    let number = number_of(alloc, built.image.program(), class)?;
    let verdicts = built.verdicts.as_slice();
    let text = class_text(alloc, &built.image, verdicts, forced, budget, number)?;
    Ok(text.into_bytes())
}

/// The number of the class of a name with dots.
fn number_of(alloc: Global, program: &Program, class: &str) -> Result<u32, CommandFault>
    ensures { IfOk result (IsClassOf program.now class.now) }
{
    let names = entries_of(alloc, class)?;
    let [name] = names.as_slice() else {
        return Err(CommandFault::Entry(EntryFault::Unknown { entry: 0 }));
    };
    match program.number_of(alloc, name)? {
        Some(number) => Ok(number),
        None => Err(CommandFault::Entry(EntryFault::Unknown { entry: 0 })),
    }
}
