// The store: the words of values, one value after the other, and beside them where those of a named value are.
ghost use Rattle.std.specs.Prelude.{◌≡◌, ◌↔◌, ◌+◌, ◌<◌, min, IsOk, IsErr, set, get_or, bit_or, ◌*◌, ◌%◌, ◌^◌, ◌-◌};
ghost use Rattle.std.specs.Iterator.{IsFinite};

use crate::filled::Filled;
use cases_scan::Unreadable;

const STORE_WORDS: usize = 262_144;

// The most values of a store that have a name.
pub const MOST_NAMED: usize = 20_480;

// The indices from one up to another.
#[derive(Clone, Copy, Default)]
pub struct Part {
    pub from: usize,
    pub to: usize,
}

// A part with its name.
#[derive(Clone, Copy, Default)]
pub struct Named<'a> {
    name: &'a [u8],
    part: Part,
}

// A store that takes a name from anywhere, for any part. `InputStore`, which takes names of its input alone, needs no array for them.
// The arrays are lent, since they are too large to be handed over.
#[derive(Drop)]
pub struct Store<'s, 'a> {
    words: &'s mut Filled<u32, STORE_WORDS>,
    named: &'s mut Filled<Named<'a>, MOST_NAMED>,
}

// kept: `extend`, `push_again` and `push_bytes_of` are those of `InputStore`, over another array; a trait of both would have to be named
// wherever one of them is called
impl<'s, 'a> Store<'s, 'a> {
    pub fn new(
        words: &'s mut Filled<u32, STORE_WORDS>,
        named: &'s mut Filled<Named<'a>, MOST_NAMED>,
    ) -> Store<'s, 'a>
        ensures words { result.words.now ≡ words.old }
        ensures named { result.named.now ≡ named.old }
    {
        Store { words, named }
    }

    // Where the next word goes.
    pub fn top(&self) -> usize
        ensures { result ≡ self.now.words.now.len }
    {
        self.words.len()
    }

    fn word(&self, i: usize) -> Result<u32, Unreadable> {
        self.words.as_slice().get(i).copied().ok_or(Unreadable)
    }

    // The words from an index up to the top.
    pub fn part_from(&self, from: usize) -> Part
        ensures { (result.from ≡ from) × (result.to ≡ self.now.words.now.len) }
    {
        Part {
            from,
            to: self.top(),
        }
    }

    // The words of a part, or none where there is no such part.
    pub fn words(&self, part: Part) -> &[u32] {
        self.words
            .as_slice()
            .get(part.from..part.to)
            .unwrap_or_default()
    }

    // ---- words on top

    // Drops the words from an index on.
    pub fn truncate(&mut self, top: usize)
        ensures len { self.new.words.now.len ≡ min self.old.words.now.len top }
        ensures items { self.new.words.now.items ≡ self.old.words.now.items }
        ensures names { self.new.named.now ≡ self.old.named.now }
    {
        self.words.truncate(top);
    }

    // Adds a word, where there is room.
    pub fn push(&mut self, word: u32) -> Result<(), Unreadable>
        ensures len { IsOk result → self.new.words.now.len ≡ self.old.words.now.len + 1 }
        ensures word { IsOk result → self.new.words.now.items ≡ set self.old.words.now.items self.old.words.now.len word }
        ensures full { IsErr result → (self.old.words.now.len ≡ STORE_WORDS) × (self.new.words.now ≡ self.old.words.now) }
        ensures names { self.new.named.now ≡ self.old.named.now }
    {
        self.words.push(word)
    }

    // A word for each item.
    pub fn extend<I: Iterator + Drop>(&mut self, items: I) -> Result<(), Unreadable>
    where
        u32: From<I::Item>,
        requires can { I.can_next items }
        requires ends { IsFinite (I.remaining items) }
    {
        for item in items {
            self.push(u32::from(item))?;
        }
        Ok(())
    }

    // The words of a part once more.
    pub fn push_again(&mut self, part: Part) -> Result<(), Unreadable> {
        // kept: a word is found by its index, since the store is pushed to while it is read; a slice of it would stay borrowed
        for i in part.from..part.to {
            self.push(self.word(i)?)?;
        }
        Ok(())
    }

    // The bytes of the words of a part, each word's lowest first.
    pub fn push_bytes_of(&mut self, part: Part) -> Result<(), Unreadable> {
        // kept: as in `push_again`
        for i in part.from..part.to {
            self.extend(self.word(i)?.to_le_bytes().into_iter())?;
        }
        Ok(())
    }

    // The words from an index up to the top, that many times in all.
    pub fn repeat(&mut self, from: usize, times: u32) -> Result<(), Unreadable> {
        let item = self.part_from(from);
        if times == 0 {
            self.truncate(from);
        }
        for _ in 1..times {
            self.push_again(item)?;
        }
        Ok(())
    }

    // The last word from an index on becomes 256 times itself, without what is over 32 bits, and a byte. None is there: an error, and no
    // change.
    pub fn shift(&mut self, from: usize, byte: u8) -> Result<(), Unreadable>
        ensures same { self.new.words.now.len ≡ self.old.words.now.len }
        ensures some { IsOk result ↔ (from < self.old.words.now.len) }
        ensures none { IsErr result → self.new.words.now ≡ self.old.words.now }
        ensures word { IsOk result →
            self.new.words.now.items ≡
            set self.old.words.now.items (self.old.words.now.len - 1)
            (bit_or (get_or self.old.words.now.items (self.old.words.now.len - 1) 0 * 256 % 2 ^ 32) byte) }
        ensures names { self.new.named.now ≡ self.old.named.now }
    {
        if self.top() <= from {
            return Err(Unreadable);
        }
        let word = self.words.pop().ok_or(Unreadable)?;
        self.push(word << 8 | u32::from(byte))
    }

    // ---- names

    // Gives the words of a part a name, where there is room for one more.
    pub fn define(&mut self, name: &'a [u8], part: Part) -> Result<(), Unreadable>
        ensures len { IsOk result → self.new.named.now.len ≡ self.old.named.now.len + 1 }
        ensures full { IsErr result → (self.old.named.now.len ≡ MOST_NAMED) × (self.new.named.now ≡ self.old.named.now) }
        ensures name { IsOk result →
            self.new.named.now.items ≡
            set self.old.named.now.items self.old.named.now.len (record { name = name.entry; part = part }) }
        ensures words { self.new.words.now ≡ self.old.words.now }
    {
        self.named.push(Named { name, part })
    }

    // The words that were last given a name.
    pub fn find(&self, name: &[u8]) -> Result<Part, Unreadable> {
        let named = self
            .named
            .as_slice()
            .iter()
            .rfind(|named| named.name == name)
            .ok_or(Unreadable)?;
        Ok(named.part)
    }
}
