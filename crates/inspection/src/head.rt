//! What is said of an image as a whole.

ghost use Rattle.std.specs.Prelude.{◌≡◌, IfOk, if◌then◌else◌, is_some, length};
ghost use Rattle.std.specs.String.{string_bytes};
ghost use Rattle.region_shape.specs.Regions.{environment_of};
ghost use Rattle.inspection.specs.Texts.{built_below, counts_text, head_text, identity_text, objects_below};

use crate::digest::{digest_text, version_of};
use object_graph::Image;
use std::alloc::{AllocError, Global};

/// 1 where a class has a region, and else 0.
fn one_if_built(image: &Image, class: u32) -> u32
    ensures { result ≡ if is_some (environment_of image.now.regions class) then 1 else 0 }
{
    match image.region(class) {
        Some(_) => 1,
        None => 0,
    }
}

/// How many of the classes below a number have a region.
fn built_below(image: &Image, count: u32) -> u32
    ensures { result ≡ built_below image.now count }
{
    let mut built = 0;
    for class in 0..count {
        built += one_if_built(image, class);
    }
    built
}

/// How many objects the regions of the classes below a number hold.
fn objects_below(image: &Image, count: u32) -> u64
    ensures { result ≡ objects_below image.now count }
{
    let mut objects = 0;
    for class in 0..count {
        objects += u64::from(image.object_count(class));
    }
    objects
}

/// The version, the digest and the length of bytes that are the text of an image.
fn identity_text(alloc: Global, bytes: &[u8]) -> Result<String, AllocError>
    ensures { IfOk result (λ text. string_bytes text ≡ identity_text bytes.now) }
{
    let version = version_of(bytes);
    let digest = digest_text(alloc, bytes)?;
    let length = bytes.len();
    format!(in alloc; "version {version}\ndigest {digest}\nbytes {length}\n")
}

/// How many classes an image has, how many of them have a region, and how many objects.
fn counts_text(alloc: Global, image: &Image, count: u32) -> Result<String, AllocError>
    requires { count ≡ length image.now.program.family }
    ensures { IfOk result (λ text. string_bytes text ≡ counts_text image.now) }
{
    let built = built_below(image, count);
    let objects = objects_below(image, count);
    format!(in alloc; "classes {count} built {built} objects {objects}\n")
}

/// The lines on an image as a whole, of the bytes that are its text.
pub(crate) fn head_text(alloc: Global, bytes: &[u8], image: &Image) -> Result<String, AllocError>
    ensures { IfOk result (λ text. string_bytes text ≡ head_text bytes.now image.now) }
{
    let classes = image.program().family().classes();
    let counts = counts_text(alloc, image, classes.len() as u32)?;
    let identity = identity_text(alloc, bytes)?;
    format!(in alloc; "{identity}{counts}")
}
