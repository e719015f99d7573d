//! Why bytes are no image.

ghost use Rattle.std.specs.Prelude.{◌≡◌, ◌⊎◌, [], unwrap_or, IfOk};
ghost use Rattle.classfile.specs.Units.{IsModifiedUtf8};
ghost use Rattle.loading.specs.Families.{name_in};
ghost use Rattle.image_parser.specs.declared.image_fault.ImageFault.TheVariants.{Memory};
ghost use Rattle.image_parser.specs.ImageFaults.{name_units, of_header, of_files, of_link, of_regions};

use crate::fault::{FilesFault, RegionsFault};
use crate::header::HeaderFault;
use classfile::{ClassFault, ClassName};
use loading::family::Family;
use loading::fault::LinkFault;
use loading::names::name_of;
use std::alloc::{AllocError, Global};
use thiserror::Error;

/// What is wrong first with bytes that are no image, or that memory ran out. Names of classes are printed with slashes.
#[derive(Debug, Drop, Error)]
pub enum ImageFault {
    #[error("Memory")]
    Memory,
    /// They end too early.
    #[error("Truncated")]
    Truncated,
    /// They do not begin with `JPIM`.
    #[error("Magic")]
    Magic,
    /// The version is neither 1 nor 2.
    #[error("Version")]
    Version,
    /// The last 32 bytes are not the digest of all before.
    #[error("Digest")]
    Digest,
    /// The class file of this place is none.
    #[error("Class {index} {fault}")]
    Class { index: u32, fault: ClassFault },
    /// The class files do not make one program.
    #[error("Link {fault}")]
    Link { fault: LinkFault },
    /// The name of a class does not come after that of the class before.
    #[error("Order")]
    Order,
    /// The flag of this class is none, or its region is none that it can have.
    #[error("Shape {name}")]
    Shape { name: ClassName },
    /// The region of this class, and of no lower one, names an object that there is not.
    #[error("Name {name}")]
    Name { name: ClassName },
    /// Bytes follow the last region.
    #[error("Extra")]
    Extra,
    /// In version 2: the region of this class, and of no lower one, keeps an object that no static field reaches.
    #[error("Idle {name}")]
    Idle { name: ClassName },
}

/// The name of a class, as its file spells it; none where there is no such class.
fn spelled(family: &Family, class: u32) -> &[u8]
    ensures value { result.now ≡ unwrap_or (name_in family.now class) [] }
    ensures modified { IsModifiedUtf8 result.now }
{
    match family.file(class) {
        Some(file) => name_of(file),
        None => &[],
    }
}

/// The name of a class.
fn class_name(alloc: Global, family: &Family, class: u32) -> Result<ClassName, AllocError>
    ensures { IfOk result (λ name. name ≡ name_units family.now class) }
{
    ClassName::from_modified_utf8(alloc, spelled(family, class))
}

impl ImageFault {
    /// The fault of an image that one of its frame is.
    pub(crate) fn of_header(fault: HeaderFault) -> ImageFault
        ensures { result ≡ of_header fault }
    {
        match fault {
            HeaderFault::Truncated => ImageFault::Truncated,
            HeaderFault::Magic => ImageFault::Magic,
            HeaderFault::Version => ImageFault::Version,
            HeaderFault::Digest => ImageFault::Digest,
        }
    }

    /// The fault of an image that one of its class files is.
    pub(crate) fn of_files(fault: FilesFault) -> ImageFault
        ensures { result ≡ of_files fault }
    {
        match fault {
            FilesFault::Memory => ImageFault::Memory,
            FilesFault::Truncated => ImageFault::Truncated,
            FilesFault::Class { index, fault } => ImageFault::Class { index, fault },
            FilesFault::Order => ImageFault::Order,
        }
    }

    /// The fault of an image that one of linking its class files is.
    pub(crate) fn of_link(fault: LinkFault) -> ImageFault
        ensures { result ≡ of_link fault }
    {
        match fault {
            LinkFault::Memory => ImageFault::Memory,
            fault => ImageFault::Link { fault },
        }
    }

    /// The fault of an image that one of its flags and regions is. `Memory` where there is none for a class's name.
    pub(crate) fn of_regions(alloc: Global, family: &Family, fault: RegionsFault) -> ImageFault
        ensures { (result ≡ Memory) ⊎ (result ≡ of_regions family.now fault) }
    {
        match fault {
            RegionsFault::Memory => ImageFault::Memory,
            RegionsFault::Truncated => ImageFault::Truncated,
            RegionsFault::Shape { class } => match class_name(alloc, family, class) {
                Ok(name) => ImageFault::Shape { name },
                Err(_) => ImageFault::Memory,
            },
            RegionsFault::Extra => ImageFault::Extra,
            RegionsFault::Name { class } => match class_name(alloc, family, class) {
                Ok(name) => ImageFault::Name { name },
                Err(_) => ImageFault::Memory,
            },
            RegionsFault::Idle { class } => match class_name(alloc, family, class) {
                Ok(name) => ImageFault::Idle { name },
                Err(_) => ImageFault::Memory,
            },
        }
    }
}
