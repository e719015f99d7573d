//! Laws of reading and writing.

ghost use Rattle.std.specs.Prelude.{◌≡◌, List, ℕ, Option};
ghost use Rattle.program.specs.Programs.{IsProgram};
ghost use Rattle.region_shape.specs.Wholes.{AreWhole};
ghost use Rattle.region_shape.specs.declared.regions.Region.{Region as Held};
ghost use Rattle.region_shape.specs.Regions.{environment_of};
ghost use Rattle.object_graph.specs.Cuts.{IsCutOf};
ghost use Rattle.object_graph.specs.Images.{AreSmall, ImageTables};
ghost use Rattle.image_format.specs.declared.version.Version.TheVariants.{One};
ghost use Rattle.image_format.specs.Images.{ImageText, OldText, VersionText};
ghost use Rattle.image_writer.specs.ImageTexts.{text_of, told_of};

/// An image that was read is written as the bytes that were read.
pub fn written_as_read()
    ensures { (bytes : List ℕ) (I : ImageTables) → ImageText bytes I.program.family (told_of I) → text_of I ≡ bytes }
{}

/// A text of version 1 that tells whole regions, with all the objects that were made, is a text of the image that is
/// gathered from those regions: the image without the objects that no static field reaches. So by `only_text` that text
/// is read as that image.
pub fn old_text()
    ensures { (I : ImageTables) (whole : List (Option Held)) (bytes : List ℕ) → IsProgram I.program
        → AreWhole I.program (environment_of whole) → AreSmall I.program (environment_of I.regions)
        → IsCutOf I.program (environment_of whole) (environment_of I.regions)
        → VersionText One bytes I.program.family (told_of (record { program = I.program; regions = whole }))
        → OldText bytes I.program.family (told_of I) }
{}
