//! Writes of an image into sinks that fail.
ghost use Rattle.image_format.specs.Images.{AreShort};

use crate::streams::OneByOne;
use image_reader::read;
use image_writer::{WriteFault, write};
use object_graph::Image;
use sinks::Out;
use std::alloc::{AllocError, Global};

/// The image of these bytes is written into a sink that takes one byte a call and then fails, or answers 0, after each
/// number of bytes below their count. How many of these writes tell how many bytes went out, and these are the first.
pub fn failing(alloc: Global, bytes: &[u8]) -> Result<String, AllocError> {
    match read(alloc, bytes) {
        Ok(image) => writes_text(alloc, &image, bytes),
        Err(fault) => format!(in alloc; "{fault:?}"),
    }
}

/// How many writes are told right where the sink fails, and where it answers 0, of how many each.
fn writes_text(alloc: Global, image: &Image, bytes: &[u8]) -> Result<String, AllocError>
    requires { AreShort image.now.program.family }
{
    let failed = right_writes(alloc, image, bytes, false);
    let stalled = right_writes(alloc, image, bytes, true);
    let all = bytes.len();
    format!(in alloc; "{failed} and {stalled} of {all}")
}

/// How many writes are told right, one for each number of bytes below their count.
fn right_writes(alloc: Global, image: &Image, bytes: &[u8], stalls: bool) -> usize
    requires { AreShort image.now.program.family }
{
    let mut right = 0usize;
    for room in 0..bytes.len() {
        if is_right(alloc, image, bytes, room, stalls) {
            right = right.saturating_add(1);
        }
    }
    right
}

/// Whether a write into a sink of this room answers `Device` with as many bytes as went out, which are the first.
fn is_right(alloc: Global, image: &Image, bytes: &[u8], room: usize, stalls: bool) -> bool
    requires { AreShort image.now.program.family }
{
    let mut out = Out::new(OneByOne {
        wanted: bytes,
        taken: 0,
        room,
        stalls,
        is_same: true,
    });
    let answer = write(alloc, image, &mut out);
    let stream = out.into_inner();
    match answer {
        Err(WriteFault::Device { sent }) => sent == room && stream.taken == room && stream.is_same,
        _ => false,
    }
}
