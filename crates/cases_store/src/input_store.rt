// The store of an input: the words of values, one value after the other. Behind the words of a named value there are two more: where its
// name begins in the input, and where its words begin. So names are looked for from the top down.
ghost use Rattle.std.specs.Prelude.{length};
ghost use Rattle.std.specs.Iterator.{IsFinite, at_most};

use crate::store::Part;
use cases_scan::{Unreadable, split_word};

// The most words of an input's values, with the two of each name.
pub const STORE_WORDS: usize = 262_143;

// ---- names

#[derive(Clone, Copy)]
struct Named {
    // where the name begins in the input
    name: usize,
    part: Part,
}

// The words of named values, each with the two behind them. The values come one after the other, the last first.
#[derive(Clone, Copy)]
struct NamedValues<'s> {
    words: &'s [u32],
}

impl<'s> Iterator for NamedValues<'s> {
    type Item = Named;

    ghost remaining = { λ s. at_most (length s.words.now) };

    fn next(&mut self) -> Option<Named> {
        let [words @ .., name, from] = self.words else {
            return None;
        };
        let part = Part {
            from: *from as usize,
            to: words.len(),
        };
        self.words = words.get(..part.from)?;
        Some(Named {
            name: *name as usize,
            part,
        })
    }
}

// ---- the store

// The array is lent, since it is too large to be handed over.
// kept: no heap, so indices stand beside the array; and a value that ended above the top still has its words
#[derive(Drop)]
pub struct InputStore<'s, 'a> {
    input: &'a [u8],
    words: &'s mut [u32; STORE_WORDS],
    // where the words of a line begin, above all named values; none where the store is full
    start: Option<usize>,
    // where the next word goes; none where no word can be pushed
    top: Option<usize>,
}

impl<'s, 'a> InputStore<'s, 'a> {
    pub fn new(input: &'a [u8], words: &'s mut [u32; STORE_WORDS]) -> InputStore<'s, 'a> {
        InputStore {
            input,
            words,
            start: Some(0),
            top: Some(0),
        }
    }

    pub fn top(&self) -> Option<usize> {
        self.top
    }

    // The words from an index up to the top; none where either is nowhere.
    pub fn part_from(&self, from: Option<usize>) -> Part {
        match (from, self.top) {
            (Some(from), Some(to)) => Part { from, to },
            _ => Part::default(),
        }
    }

    // The words of a part, or none where there is no such part.
    pub fn words(&self, part: Part) -> &[u32] {
        self.words.get(part.from..part.to).unwrap_or_default()
    }

    fn word(&self, i: usize) -> Result<u32, Unreadable> {
        self.words.get(i).copied().ok_or(Unreadable)
    }

    // ---- words on top

    // Drops the words of a line, so that others can be put there, unless the store is full.
    pub fn begin_line(&mut self) -> Result<(), Unreadable> {
        let start = self.start.ok_or(Unreadable)?;
        self.top = Some(start);
        Ok(())
    }

    pub fn push(&mut self, word: u32) -> Result<(), Unreadable> {
        let top = self.top.ok_or(Unreadable)?;
        if STORE_WORDS <= top {
            return Err(Unreadable);
        }
        self.words[top] = word;
        self.top = Some(top + 1);
        Ok(())
    }

    // A word for each item.
    pub fn extend<I: Iterator + Drop>(&mut self, items: I) -> Result<(), Unreadable>
    where
        u32: From<I::Item>,
        requires can { I.can_next items }
        requires ends { IsFinite (I.remaining items) }
    {
        for item in items {
            self.push(u32::from(item))?;
        }
        Ok(())
    }

    // The words of a part once more.
    pub fn push_again(&mut self, part: Part) -> Result<(), Unreadable> {
        // kept: a word is found by its index, since the store is pushed to while it is read; a slice of it would stay borrowed
        for i in part.from..part.to {
            self.push(self.word(i)?)?;
        }
        Ok(())
    }

    // The bytes of the words of a part, each word's lowest first.
    pub fn push_bytes_of(&mut self, part: Part) -> Result<(), Unreadable> {
        // kept: as in `push_again`
        for i in part.from..part.to {
            self.extend(self.word(i)?.to_le_bytes().into_iter())?;
        }
        Ok(())
    }

    // The words from an index up to the top, that many times in all. Where they begin nowhere, as in a group that has no item yet, none are
    // pushed, and after 0 times no word can be pushed any more.
    pub fn repeat(&mut self, from: Option<usize>, times: u32) -> Result<(), Unreadable> {
        let item = self.part_from(from);
        if times == 0 {
            self.top = self.top.and(from);
        }
        if 1 < times && self.top.is_none() {
            return Err(Unreadable);
        }
        for _ in 1..times {
            self.push_again(item)?;
        }
        Ok(())
    }

    // The last word from an index on becomes 256 times itself, without what is over 32 bits, and a byte.
    pub fn shift(&mut self, from: Option<usize>, byte: u8) -> Result<(), Unreadable> {
        let item = self.part_from(from);
        let words = self.words.get_mut(item.from..item.to).ok_or(Unreadable)?;
        let word = words.last_mut().ok_or(Unreadable)?;
        *word = *word << 8 | u32::from(byte);
        Ok(())
    }

    // ---- names

    fn push_name(&mut self, name: usize) -> Result<(), Unreadable> {
        let from = self.start.ok_or(Unreadable)?;
        self.push(u32::try_from(name).or(Err(Unreadable))?)?;
        self.push(u32::try_from(from).or(Err(Unreadable))?)
    }

    // Gives all words above the named values a name, by where it begins in the input. Where there is no room for that, the store is full
    // from then on.
    pub fn define(&mut self, name: usize) {
        self.start = match self.push_name(name) {
            Ok(()) => self.top,
            Err(_) => None,
        };
    }

    // The words that were last given a name.
    pub fn find(&self, name: &[u8]) -> Result<Part, Unreadable> {
        let start = self.start.ok_or(Unreadable)?;
        let words = self.words.get(..start).ok_or(Unreadable)?;
        for named in (NamedValues { words }) {
            let (found, _) = split_word(self.input.get(named.name..).unwrap_or_default());
            if found == name {
                return Ok(named.part);
            }
        }
        Err(Unreadable)
    }
}
