//! Why bytes are no region.

ghost use Rattle.std.specs.Prelude.{◌≡◌};
ghost use Rattle.image_parser.specs.declared.fault.RegionFault.TheVariants.{Memory};
ghost use Rattle.image_parser.specs.declared.fault.FlagsFault.TheVariants as flags;
ghost use Rattle.image_parser.specs.declared.fault.FilesFault.TheVariants as files;
ghost use Rattle.image_parser.specs.declared.fault.RegionsFault.TheVariants as regions;
ghost use Rattle.image_parser.specs.FileFaults.{of_class};
ghost use Rattle.image_parser.specs.Inside.{inside, among_regions};
ghost use Rattle.image_parser.specs.reading.Files.{of_run};

use classfile::ClassFault;
use std::alloc::{AllocError, AllocFailed};

/// What is wrong with a region, or that memory ran out.
#[derive(Clone, Copy, Debug)]
pub(crate) enum RegionFault {
    Memory,
    /// The bytes end too early.
    Truncated,
    /// A part is none that a region of the class can have.
    Shape,
}

/// What is wrong with the flags and regions of an image, or that memory ran out.
#[derive(Clone, Copy, Debug)]
pub(crate) enum FlagsFault {
    Memory,
    /// The bytes end too early.
    Truncated,
    /// The flag of this class is none, or its region is none that it can have.
    Shape { class: u32 },
}

/// What is wrong with all that stands after the class files of an image, or that memory ran out.
#[derive(Clone, Copy, Debug)]
pub(crate) enum RegionsFault {
    Memory,
    Truncated,
    Shape { class: u32 },
    /// Bytes follow the last region.
    Extra,
    /// The region of this class, and of no lower one, names an object that there is not.
    Name { class: u32 },
    /// The region of this class, and of no lower one, keeps an object that no static field reaches.
    Idle { class: u32 },
}

/// What is wrong with the class files of an image, or that memory ran out.
#[derive(Debug, Drop)]
pub(crate) enum FilesFault {
    Memory,
    /// The bytes end too early.
    Truncated,
    /// The class file of this place is none.
    Class { index: u32, fault: ClassFault },
    /// The name of a class does not come after that of the class before.
    Order,
}

impl FilesFault {
    /// The fault of the class file of a place.
    pub(crate) fn of_class(index: u32, fault: ClassFault) -> FilesFault
        ensures { result ≡ of_class index fault }
    {
        match fault {
            ClassFault::Memory => FilesFault::Memory,
            fault => FilesFault::Class { index, fault },
        }
    }
}

impl<T: Drop> From<AllocFailed<T>> for FilesFault {
    ghost from_gives = { λ _ e. e ≡ files.Memory };

    fn from(_error: AllocFailed<T>) -> FilesFault {
        FilesFault::Memory
    }
}

impl FlagsFault {
    /// The fault that it is of all that stands after the class files.
    pub(crate) fn among_regions(self) -> RegionsFault
        ensures { result ≡ among_regions self }
    {
        match self {
            FlagsFault::Memory => RegionsFault::Memory,
            FlagsFault::Truncated => RegionsFault::Truncated,
            FlagsFault::Shape { class } => RegionsFault::Shape { class },
        }
    }
}

impl RegionFault {
    /// The fault that it is of a run of bytes that is to be a class file.
    pub(crate) fn of_run(self) -> FilesFault
        ensures { result ≡ of_run self }
    {
        match self {
            RegionFault::Memory => FilesFault::Memory,
            RegionFault::Truncated => FilesFault::Truncated,
            RegionFault::Shape => FilesFault::Truncated,
        }
    }

    /// The fault that it is of the flag and the region of a class.
    pub(crate) fn inside(self, class: u32) -> FlagsFault
        ensures { result ≡ inside class self }
    {
        match self {
            RegionFault::Memory => FlagsFault::Memory,
            RegionFault::Truncated => FlagsFault::Truncated,
            RegionFault::Shape => FlagsFault::Shape { class },
        }
    }
}

impl From<AllocError> for FlagsFault {
    ghost from_gives = { λ _ e. e ≡ flags.Memory };

    fn from(_error: AllocError) -> FlagsFault {
        FlagsFault::Memory
    }
}

impl From<AllocError> for RegionsFault {
    ghost from_gives = { λ _ e. e ≡ regions.Memory };

    fn from(_error: AllocError) -> RegionsFault {
        RegionsFault::Memory
    }
}

impl From<AllocError> for RegionFault {
    ghost from_gives = { λ _ e. e ≡ Memory };

    fn from(_error: AllocError) -> RegionFault {
        RegionFault::Memory
    }
}

impl<T: Drop> From<AllocFailed<T>> for RegionFault {
    ghost from_gives = { λ _ e. e ≡ Memory };

    fn from(_error: AllocFailed<T>) -> RegionFault {
        RegionFault::Memory
    }
}
