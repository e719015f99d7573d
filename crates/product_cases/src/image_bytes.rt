//! The bytes of an image, and what reading them answers, cut and changed.

use crate::answer::Answer;
use crate::hex::bytes_of;
use crate::image_sinks::failing;
use image_reader::{read, world};

/// Given is an image. Asked are `cuts` and `changes`: what reading its first bytes answers, by their number, and
/// reading it with all bits of one byte changed, by its offset; a number is told where the answer is another than that
/// of the number before. `failing` is how many writes of it into sinks that fail after fewer bytes, and into ones that
/// answer 0, tell how many went out, of how many each. `start` is whether a run may start from it without entries,
/// which no command can ask.
pub fn ask(answer: &mut Answer, given: &str, asked: &str) {
    let bytes = bytes_of(answer, given);
    match asked {
        "cuts" => add_cuts(answer, &bytes),
        "changes" => add_changes(answer, bytes),
        "failing" => answer.made(failing(answer.alloc, &bytes)),
        "start" => start(answer, &bytes),
        _ => answer.word("no question"),
    }
}

/// Adds what reading an image answers after its number, unless it is the last answer again.
fn add_numbered(answer: &mut Answer, last: &mut String, number: usize, bytes: &[u8]) {
    let mut reading = Answer::new(answer.alloc);
    match read(answer.alloc, bytes) {
        Ok(_) => reading.word("read"),
        Err(fault) => reading.debug(&fault),
    }
    match reading.finish() {
        Ok(text) => add_change(answer, last, number, text),
        Err(_) => answer.refuse(),
    }
}

fn add_change(answer: &mut Answer, last: &mut String, number: usize, text: String) {
    if text.as_str() != last.as_str() {
        answer.separate(", ");
        answer.show(&number);
        answer.word(" ");
        answer.word(&text);
        *last = text
    }
}

fn add_cuts(answer: &mut Answer, bytes: &[u8]) {
    let mut last = String::new(answer.alloc);
    for length in 0..bytes.len() {
        let cut = bytes.get(..length).unwrap_or(&[]);
        add_numbered(answer, &mut last, length, cut);
    }
}

fn add_changes(answer: &mut Answer, mut bytes: Vec<u8>) {
    let mut last = String::new(answer.alloc);
    for offset in 0..bytes.len() {
        turn(&mut bytes, offset);
        add_numbered(answer, &mut last, offset, &bytes);
        turn(&mut bytes, offset);
    }
}

/// Changes all bits of the byte at an offset.
fn turn(bytes: &mut [u8], offset: usize) {
    if let Some(byte) = bytes.get_mut(offset) {
        *byte ^= 0xFF;
    }
}

/// Whether a run may start without entries.
fn start(answer: &mut Answer, bytes: &[u8]) {
    match read(answer.alloc, bytes) {
        Ok(image) => match world(answer.alloc, &image, &[]) {
            Ok(_) => answer.word("started"),
            Err(fault) => answer.show(&fault),
        },
        Err(fault) => answer.debug(&fault),
    }
}
