//! The law of the instructions that touch their own frame alone.

ghost use Rattle.frame_instructions.specs.Laws.{LocalNames, LocalMethods, StraightPlaces};

/// Where it goes on it has made up no name, is still in its method, and, but for branches and switches, is at the next
/// place.
pub fn local_is_lawful()
    ensures names { LocalNames }
    ensures methods { LocalMethods }
    ensures places { StraightPlaces }
{}
