//! The words of a page: names, values and faults, each in a list of words, and by task where it stands there. A word is
//! looked for among the last ones alone, so that its search takes as long in a large run as in a small one.

use scope_rules::Value;
use std::alloc::{AllocError, Global};

/// How many words a word is looked for among.
const LAST_WORDS: usize = 64;

/// Where the word stands among the last words, if it does.
fn place_of(words: &[Value], word: &Value) -> Option<usize> {
    for index in words.len().saturating_sub(LAST_WORDS)..words.len() {
        if words[index].is_same(word) {
            return Some(index);
        }
    }
    None
}

/// A list of words, and by task one more than the place of its word, or 0 if it has none.
#[derive(Drop)]
pub(crate) struct Words {
    pub(crate) words: Vec<Value>,
    numbers: Vec<usize>,
}

impl Words {
    /// No words.
    pub(crate) fn new(alloc: Global) -> Words {
        Words {
            words: Vec::new(alloc),
            numbers: Vec::new(alloc),
        }
    }

    /// The next task has this word, which is put behind the words if it isn't found. It is refused for memory alone.
    pub(crate) fn push(&mut self, word: Option<Value>) -> Result<(), AllocError> {
        let number = match word {
            None => 0,
            Some(word) => match place_of(&self.words, &word) {
                Some(place) => place.saturating_add(1),
                None => {
                    self.words.push(word)?;
                    self.words.len()
                },
            },
        };
        self.numbers.push(number)?;
        Ok(())
    }

    /// The number of the word of the task in the row with this index.
    pub(crate) fn number_at(&self, index: usize) -> u64 {
        match self.numbers.get(index) {
            Some(number) => *number as u64,
            None => 0,
        }
    }
}
