//! What holds of regions without the objects that no static field reaches.

ghost use Rattle.object_graph.specs.Cuts.{CutUnseen, NothingLeftOut, OneCut};

/// A run from an image, and one from the image without the objects that no static field reaches, show the same.
pub fn cut_unseen()
    ensures { CutUnseen }
{}

/// Regions determine what is left of them.
pub fn one_cut()
    ensures { OneCut }
{}

/// Of regions whose objects are all reached nothing is left out.
pub fn nothing_left_out()
    ensures { NothingLeftOut }
{}
