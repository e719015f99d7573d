//! How texts are hashed.

use crate::interner::Interner;
use classfile::Constant;
use loading::given::GivenClass;
use sha2::{Digest, Sha256};
use std::hash::{BuildHasher, FoldHasher, Hasher};

/// Up to how many constants their texts are hashed by what is known to all: whoever makes them meet costs little.
const FEW: usize = 1_024;

/// What stands behind a text, and in none.
const END: [u8; 1] = [255];

/// Where the hasher of each text begins.
#[derive(Clone, Copy, Drop)]
pub struct TextState {
    start: FoldHasher,
}

impl BuildHasher for TextState {
    type Hasher = FoldHasher;

    ghost build_hasher = { λ state. state.start };

    fn build_hasher(&self) -> FoldHasher {
        self.start
    }
}

impl TextState {
    /// What is known to all: it is the same in each run.
    pub(crate) fn known() -> Self {
        TextState {
            start: FoldHasher::default(),
        }
    }

    /// By a digest, which nobody can choose.
    pub fn of_digest(digest: &[u8]) -> Self {
        let mut start = FoldHasher::default();
        start.write(digest);
        TextState { start }
    }

    /// By the digest of these texts and those of classes. So who chooses them can't know by what they will be hashed.
    pub(crate) fn of_all(texts: &Interner, classes: &[GivenClass]) -> Self {
        let mut hasher = Sha256::new();
        for text in texts.all() {
            feed(&mut hasher, text.as_slice());
        }
        for given in classes {
            feed_others(&mut hasher, texts, given.file.constants());
        }
        TextState::of_digest(&hasher.finalize())
    }
}

/// Feeds the texts of constants. One that is guessed right is among the texts that were fed.
fn feed_others(hasher: &mut Sha256, texts: &Interner, constants: &[Constant]) {
    for constant in constants {
        if let Constant::Utf8 { text } = constant {
            if texts.guess(text.bytes()).is_none() {
                feed(hasher, text.bytes());
            }
        }
    }
}

/// Feeds a text and its end.
fn feed(hasher: &mut Sha256, text: &[u8]) {
    hasher.update(text);
    hasher.update(&END);
}

/// Whether these classes have few constants.
pub(crate) fn has_few(classes: &[GivenClass]) -> bool {
    let mut left = FEW;
    for given in classes {
        let count = given.file.constants().len();
        if count > left {
            return false;
        }
        left -= count;
    }
    true
}
