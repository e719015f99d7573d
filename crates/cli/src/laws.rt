//! Laws of bytes: they make a program, or are refused for one fault; and so are runs and builds of them. What is
//! refused is not run, and what is built is.

ghost use Rattle.cli.specs.Laws.{BuiltImagesAreRun, LinkedAreNotRefused, OneRefusal};
ghost use Rattle.cli.specs.Laws.{OneBuildRefusal, OneImageRunRefusal, OneRunRefusal};
ghost use Rattle.cli.specs.Laws.{RefusedFilesAreNotRun, RefusedImagesAreNotRun};

/// Bytes that make a program are not refused.
pub fn linked_are_not_refused()
    ensures { LinkedAreNotRefused }
{}

/// Bytes are refused for one fault.
pub fn one_refusal()
    ensures { OneRefusal }
{}

/// A run of class files is refused for one fault.
pub fn one_run_refusal()
    ensures { OneRunRefusal }
{}

/// A run of an image is refused for one fault.
pub fn one_image_run_refusal()
    ensures { OneImageRunRefusal }
{}

/// A build of class files is refused for one fault, with the place of a text that is no class file.
pub fn one_build_refusal()
    ensures { OneBuildRefusal }
{}

/// Class files and images that are refused are not run: nothing that goes out then is of a run.
pub fn refused_are_not_run()
    ensures files { RefusedFilesAreNotRun }
    ensures images { RefusedImagesAreNotRun }
{}

/// An image that a build wrote is run as the image of that build.
pub fn built_images_are_run()
    ensures { BuiltImagesAreRun }
{}
