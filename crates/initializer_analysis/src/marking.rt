//! Which marks the code of classes bears, of all classes at once.

ghost use Rattle.std.specs.Prelude.{◌≡◌, ◌↔◌, ℕ, ◌≤◌, Some, length, IsTrue, IfOk};
ghost use Rattle.program.specs.Tables.{Tables};
ghost use Rattle.use_graph.specs.Uses.{HasMark};
ghost use Rattle.use_graph.specs.steps.Bodies.{IsUseGraph};
ghost use Rattle.use_graph.specs.steps.Deeds.{HoldsOfOne};
ghost use Rattle.graph.specs.Components.{AreComponents};
ghost use Rattle.initializer_analysis.specs.Least.{AreLeast};
ghost use Rattle.initializer_analysis.specs.steps.Marking.{IsLabel, ignored, IsLabelOf, IsMarkedBy};
ghost use Rattle.initializer_analysis.specs.steps.Marking.{HasLeastOf, AreMarks};

use crate::labels::Least;
use crate::reached_labels::least_reached;
use graph::Components;
use program::Program;
use std::alloc::{AllocError, Global};
use use_graph::body::Told;
use use_graph::feature::Feature;
use use_graph::mark::Mark;
use use_graph::{UseGraph, start_of};

/// The label of what is told of an instruction, where it is this mark for some class.
fn label_of(feature: Feature, mark: Mark) -> Option<u32>
    ensures { (l : ℕ) → (result ≡ Some l) ↔ IsLabel feature mark l }
{
    if feature.mark() == mark {
        Some(feature.field_class().unwrap_or(0))
    } else {
        None
    }
}

/// The label that is no mark of a class: that of its own fields.
fn ignored_label(mark: Mark, class: u32) -> Option<u32>
    ensures { result ≡ ignored mark class }
{
    match mark {
        Mark::ForeignWrite | Mark::ForeignRead => Some(class),
        _ => None,
    }
}

/// The least labels of what is told of some instructions.
fn labels_told(told: &[Told], mark: Mark) -> Least
    ensures { AreLeast (HoldsOfOne (IsLabelOf mark) told.now) result }
{
    let mut least = Least::none();
    for item in told {
        let label = label_of(item.feature, mark);
        least = least.join(Least::of(label));
    }
    least
}

/// The least labels of what is told of the method of a vertex, if it is one.
fn labels_at(uses: &UseGraph, vertex: usize, mark: Mark) -> Least
    ensures { AreLeast (IsMarkedBy uses.now.bodies.items mark vertex) result }
{
    match uses.body(vertex) {
        Some(body) => labels_told(&body.told, mark),
        None => Least::none(),
    }
}

/// The least labels of what is told of the method of each vertex of the calls.
fn own_marks(alloc: Global, uses: &UseGraph, mark: Mark) -> Result<Vec<Least>, AllocError>
    requires { length uses.now.bodies.items ≤ length uses.now.calls }
    ensures len { IfOk result (λ own. length own.items ≡ length uses.now.calls) }
    ensures own { IfOk result (λ own. HasLeastOf (IsMarkedBy uses.now.bodies.items mark) own.items) }
{
    let mut own = Vec::with_capacity(alloc, uses.calls.len())?;
    for vertex in 0..uses.calls.len() {
        own.push(labels_at(uses, vertex, mark))?;
    }
    Ok(own)
}

/// For each vertex of the calls the least labels of a mark that it reaches: so what `bears` asks for each class.
///
/// # Errors
/// Where memory runs out.
pub(crate) fn marks_of(
    alloc: Global,
    uses: &UseGraph,
    components: &Components,
    mark: Mark,
) -> Result<Vec<Least>, AllocError>
    requires bodies { length uses.now.bodies.items ≤ length uses.now.calls }
    requires components { AreComponents uses.now.calls components.now }
    ensures { IfOk result (λ table. AreMarks uses.now mark table.items) }
{
    let own = own_marks(alloc, uses, mark)?;
    least_reached(alloc, &uses.calls, components, own.as_slice())
}

/// Whether the code of a class bears a mark, by the table of that mark.
pub(crate) fn bears(
    program: &Program,
    uses: &UseGraph,
    table: &[Least],
    class: u32,
    mark: Mark,
) -> bool
    requires uses { IsUseGraph program.now uses.now }
    requires table { AreMarks uses.now mark table.now }
    ensures { IsTrue result ↔ HasMark program.now class mark }
{
    match start_of(program, uses, class) {
        Some(vertex) => {
            let label = table[vertex].but(ignored_label(mark, class));
            label.is_some()
        }
        None => false,
    }
}
