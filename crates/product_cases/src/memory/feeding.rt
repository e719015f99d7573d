//! Inputs are fed to readers, and their answers counted.

use super::inputs::{Random, Spoiling, spoilt};
use super::page::Page;
use super::readers::Reader;
use crate::answer::Answer;
use program::Program;
use std::alloc::Global;
use std::io::Write;

/// How many random inputs each reader gets, and how long the longest is.
const RANDOM_INPUTS: u32 = 1_000;

const RANDOM_LENGTH: usize = 400;

/// How many bytes the digest of an image has.
const DIGEST: usize = 32;

/// Journals: one that has a run, and one with the greatest numbers.
const JOURNALS: [&str; 2] = [
    "0 20\n1 1\n0 4\n1 7\n",
    "0 20\n4294967295 18446744073709551615\n",
];

/// A list of patterns, and one of entries.
const LIST: &str = "E,Box,java.Work,p";

const ENTRIES: &str = "Main,Work,Plain,Box";

/// What the random texts of a reader are made of: all bytes, where there is nothing.
fn letters_of(reader: Reader) -> &'static [u8] {
    match reader {
        Reader::Journals => b"0123456789  \n\n",
        Reader::Lists | Reader::Entries => b"EBoxW,./Main",
        _ => b"",
    }
}

/// How often an answer came, by its first word.
#[derive(Drop)]
struct Counted {
    word: String,
    count: u64,
}

/// How often each answer came, in the order of their first coming.
#[derive(Drop)]
struct Tally {
    counted: Vec<Counted>,
    longest: usize,
}

impl Tally {
    fn new(alloc: Global) -> Tally {
        Tally {
            counted: Vec::new(alloc),
            longest: 0,
        }
    }

    /// Counts what was told of an input of so many bytes.
    fn count(&mut self, answer: &mut Answer, length: usize, told: &str) {
        self.longest = self.longest.max(length);
        let (word, _) = told.split_once(' ').unwrap_or((told, ""));
        for known in self.counted.iter_mut() {
            if known.word.as_str() == word {
                known.count = known.count.saturating_add(1);
                return;
            }
        }
        self.add_word(answer, word)
    }

    /// Adds a word that came once.
    fn add_word(&mut self, answer: &mut Answer, word: &str) {
        let Ok(word) = String::from_str(answer.alloc, word) else {
            return answer.refuse();
        };
        if self.counted.push(Counted { word, count: 1 }).is_err() {
            answer.refuse()
        }
    }

    /// Tells the longest input, and each word with its count.
    fn tell(&self, answer: &mut Answer) {
        answer.word("at most ");
        answer.show(&self.longest);
        answer.word(" bytes");
        for known in &self.counted {
            answer.word(", ");
            answer.word(&known.word);
            answer.word(" ");
            answer.show(&known.count);
        }
    }
}

/// Feeds the inputs of a name to its reader.
pub fn feed<W: Write>(
    page: &mut Page<'_, W>,
    name: &str,
    program: &Program,
    files: &[Vec<u8>],
    images: &[Vec<u8>],
) {
    match name {
        "class_files" => feed_all(page, Reader::ClassFiles, program, files),
        "images" => feed_images(page, program, images),
        "journals" => feed_texts(page, Reader::Journals, program, &JOURNALS),
        "lists" => feed_texts(page, Reader::Lists, program, &[LIST]),
        "entries" => feed_texts(page, Reader::Entries, program, &[ENTRIES]),
        _ => page.give_up(),
    }
}

/// Feeds images without their digests.
fn feed_images<W: Write>(page: &mut Page<'_, W>, program: &Program, images: &[Vec<u8>]) {
    let mut bodies = Vec::new(page.alloc);
    for image in images {
        let length = image.len().saturating_sub(DIGEST);
        add_input(page, &mut bodies, image.get(..length).unwrap_or(&[]));
    }
    feed_all(page, Reader::Images, program, &bodies)
}

/// Feeds the bytes of these texts.
fn feed_texts<W: Write>(page: &mut Page<'_, W>, reader: Reader, program: &Program, texts: &[&str]) {
    let mut inputs = Vec::new(page.alloc);
    for text in texts {
        add_input(page, &mut inputs, text.as_bytes());
    }
    feed_all(page, reader, program, &inputs)
}

fn add_input<W: Write>(page: &mut Page<'_, W>, inputs: &mut Vec<Vec<u8>>, bytes: &[u8]) {
    let Ok(input) = Vec::from_slice(page.alloc, bytes) else {
        return page.give_up();
    };
    if inputs.push(input).is_err() {
        page.give_up()
    }
}

fn feed_all<W: Write>(page: &mut Page<'_, W>, reader: Reader, program: &Program, good: &[Vec<u8>]) {
    let turned = Spoiling::Turned(0xFF);
    let off_by_one = Spoiling::Turned(1);
    feed_made(page, reader, program, good, Some(Spoiling::Cut), "cut");
    feed_made(page, reader, program, good, Some(turned), "turned");
    feed_made(page, reader, program, good, Some(off_by_one), "off by one");
    feed_made(page, reader, program, good, None, "random");
}

/// Feeds good inputs, and each of them spoilt at each place; or random ones.
fn feed_made<W: Write>(
    page: &mut Page<'_, W>,
    reader: Reader,
    program: &Program,
    good: &[Vec<u8>],
    spoiling: Option<Spoiling>,
    how: &str,
) {
    let name = reader.name();
    let Ok(line) = format!(in page.alloc; "{name}, {how}") else {
        return page.give_up();
    };
    page.ask(&line);
    let mut answer = Answer::new(page.alloc);
    add_counts(&mut answer, reader, program, good, spoiling);
    match answer.finish() {
        Ok(text) => page.line(&text),
        Err(_) => page.give_up(),
    }
}

/// The counts of a reader's answers.
fn add_counts(
    answer: &mut Answer,
    reader: Reader,
    program: &Program,
    good: &[Vec<u8>],
    spoiling: Option<Spoiling>,
) {
    let mut tally = Tally::new(answer.alloc);
    for bytes in good {
        match spoiling {
            Some(spoiling) => count_spoilt(answer, reader, program, bytes, spoiling, &mut tally),
            None => count_random(answer, reader, program, bytes, &mut tally),
        }
    }
    tally.tell(answer)
}

/// Counts the answer to an input.
fn count(answer: &mut Answer, reader: Reader, program: &Program, bytes: &[u8], tally: &mut Tally) {
    let mut told = Answer::new(answer.alloc);
    reader.ask(&mut told, program, bytes);
    match told.finish() {
        Ok(told) => tally.count(answer, bytes.len(), &told),
        Err(_) => answer.refuse(),
    }
}

/// Counts the answers to a good input, and to it spoilt at each place.
fn count_spoilt(
    answer: &mut Answer,
    reader: Reader,
    program: &Program,
    good: &[u8],
    spoiling: Spoiling,
    tally: &mut Tally,
) {
    count(answer, reader, program, good, tally);
    for number in 0..good.len() {
        let bytes = spoilt(answer, good, spoiling, number);
        count(answer, reader, program, &bytes, tally);
    }
}

/// Counts the answers to beginnings of a good input with random bytes after them, and random bytes alone.
fn count_random(
    answer: &mut Answer,
    reader: Reader,
    program: &Program,
    good: &[u8],
    tally: &mut Tally,
) {
    let mut random = Random::new();
    let letters = letters_of(reader);
    for number in 0..RANDOM_INPUTS {
        let kept = if number < RANDOM_INPUTS / 4 {
            0
        } else {
            random.up_to(good.len())
        };
        let mut bytes = answer.copied(good.get(..kept).unwrap_or(good));
        random.add_bytes(answer, &mut bytes, RANDOM_LENGTH, letters);
        count(answer, reader, program, &bytes, tally);
    }
}
