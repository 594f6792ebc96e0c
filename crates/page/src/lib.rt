// Words put into a buffer one after another, or counted. Every function is total.
#![tactic(auto)]

ghost use Rattle.std.specs.Prelude.{◌≡◌, [], ◌∷◌, ◌+◌, ◌-◌, ◌/◌, ◌%◌, min};
ghost use Rattle.std.proofs.Math.Seq.{slice};
ghost use Rattle.model.specs.Sheet.{W};

use layout::MOST_WORDS;

// 2 to the power 32
pub const WORD: u64 = 1 << 32;

// The words from index `from` up to index `to`, as far as there are any.
pub fn cut(words: &[u32], from: usize, to: usize) -> &[u32]
    ensures { result.now ≡ slice from to words.now }
{
    words.get(from..to.min(words.len())).unwrap_or_default()
}

// A buffer that words are put into one after another, and the index of the next.
#[derive(Drop)]
pub struct Page<'a> {
    pub out: &'a mut [u32],
    pub at: usize,
}

impl<'a> Page<'a> {
    ghost use Rattle.page.specs.Page.{repeated, repeated_each, Writes};

    // An empty page at the front of a buffer.
    pub fn new(out: &'a mut [u32]) -> Page<'a>
        ensures same { result.out.ghost_name ≡ out.entry.ghost_name }
        ensures words { result.out.now ≡ out.old }
        ensures at { result.at ≡ 0 }
    {
        Page { out, at: 0 }
    }

    // How many words have been put, as far as they are counted.
    pub fn count(&self) -> usize
        ensures { result ≡ self.now.at }
    {
        self.at
    }

    // Where the next `n` words end, as far as they are counted: past the most words of a sheet the index stays.
    fn end(&self, n: usize) -> usize
        ensures { result ≡ self.now.at + min n (16385 - self.now.at) }
    {
        self.at + n.min((MOST_WORDS + 1).saturating_sub(self.at))
    }

    // Writes a word where the buffer has the next index. Past the most words of a sheet nothing is written and the index stays, so
    // that every writer also counts its words, on a buffer without room.
    // kept: a store by index asks for room; this one counts where there is none, and stops behind the most words of a sheet
    pub fn put(&mut self, word: u32)
        ensures { Writes self.old (word ∷ []) self.new }
    {
        if MOST_WORDS < self.at {
            return;
        }
        if self.at < self.out.len() {
            self.out[self.at] = word;
        }
        self.at += 1;
    }

    // Writes words one after another.
    // kept: word by word, since `copy_from_slice` becomes a call of `memmove`, which nothing else in the library for C needs from outside
    pub fn copy(&mut self, words: &[u32])
        ensures { Writes self.old words.now self.new }
    {
        // A page of its own keeps the index in a register.
        let mut page = Page {
            out: &mut *self.out,
            at: self.at,
        };
        for word in words {
            page.put(*word);
        }
        self.at = page.at;
    }

    // Writes a word `n` times.
    fn repeat(&mut self, n: u32, word: u32)
        ensures { Writes self.old (repeated n (word ∷ [])) self.new }
    {
        let end = self.end(n as usize);
        let top = end.min(self.out.len());
        if self.at < top {
            self.out[self.at..top].fill(word);
        }
        self.at = end;
    }

    // Writes words, each `n` times in a row.
    pub fn repeat_each(&mut self, words: &[u32], n: u32)
        ensures { Writes self.old (repeated_each n words.now) self.new }
    {
        for w in words {
            self.repeat(n, *w);
        }
    }

    // Writes words, all of them `n` times over.
    pub fn repeat_all(&mut self, words: &[u32], n: u32)
        ensures { Writes self.old (repeated n words.now) self.new }
    {
        for _ in 0..n {
            self.copy(words);
        }
    }

    // Writes a set as two words: the low 32 bits and the high.
    pub fn put_set(&mut self, set: u64)
        ensures { Writes self.old (set % W ∷ set / W ∷ []) self.new }
    {
        let low = (set % WORD) as u32;
        let high = (set / WORD) as u32;
        self.put(low);
        self.put(high);
    }
}
