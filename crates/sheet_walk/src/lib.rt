// Reading a sheet's words one after another, up to the first bad one.
#![tactic(auto)]

ghost use Rattle.std.specs.Prelude.{◌≡◌, Bool, true, ℕ, ◌^◌, ltb};
ghost use Rattle.model.specs.Lists.{numbers};
ghost use Rattle.model.specs.Sheet.{W, word, between, below, all};
ghost use Rattle.model.specs.declared.Refusal.TheVariants.{Sheet};
ghost use Rattle.sheet_walk.specs.Walks.{GoesPast, GivesWord, GivesSet, Tests};

use model::Refusal;

// The index of the first word that is out of its range or missing.
#[derive(Clone, Copy)]
pub struct Bad(pub usize);

impl From<Bad> for Refusal {
    ghost from_gives = { λ bad refusal. refusal ≡ Sheet bad.0 };

    // Refusal 9 at that index.
    fn from(bad: Bad) -> Refusal {
        Refusal::Sheet(bad.0)
    }
}

// Whether a word has no bit at `k` or above.
fn within_bits(w: u32, k: u32) -> bool
    ensures { result ≡ ltb w (2 ^ k) }
{
    w.unbounded_shr(k) == 0
}

// A sheet's words, and the index of the next that is read.
#[derive(Clone, Copy)]
pub struct Walk<'a> {
    pub words: &'a [u32],
    pub at: usize,
}

impl<'a> Walk<'a> {
    // A `good` word.
    pub fn word<F: Fn(u32) -> bool>(&mut self, good: F) -> Result<u32, Bad>
        requires { F.IsAlwaysCallable good }
        ensures { (ok : ℕ → Bool) → Tests (F.post good) ok → GivesWord (word ok) self.old result self.new }
    {
        match self.words.get(self.at).copied() {
            Some(w) if good(w) => {
                self.at += 1;
                Ok(w)
            }
            _ => Err(Bad(self.at)),
        }
    }

    // Any word.
    pub fn any_word(&mut self) -> Result<u32, Bad>
        ensures any { GivesWord (word (λ w. true)) self.old result self.new }
        ensures small { GivesWord (word (below W)) self.old result self.new }
    {
        self.word(|_| true)
    }

    // A word from `low` to `high`.
    pub fn between(&mut self, low: u32, high: u32) -> Result<u32, Bad>
        ensures { GivesWord (word (between low high)) self.old result self.new }
    {
        self.word(|w| (low <= w) & (w <= high))
    }

    // Goes past a word below `n`.
    pub fn below(&mut self, n: u32) -> Result<(), Bad>
        ensures { GoesPast (word (below n)) self.old result self.new }
    {
        self.word(|w| w < n)?;
        Ok(())
    }

    // A word with no bit at `k` or above.
    fn bits_below(&mut self, k: u32) -> Result<u32, Bad>
        ensures { GivesWord (word (below (2 ^ k))) self.old result self.new }
    {
        self.word(|w| within_bits(w, k))
    }

    // A set of numbers below `k`, from its low word and its high one.
    pub fn set_below(&mut self, k: u32) -> Result<u64, Bad>
        ensures { GivesSet k self.old result self.new }
    {
        let low = self.bits_below(k.min(32))?;
        let high = self.bits_below(k.saturating_sub(32))?;
        Ok(bits::of_words(low, high))
    }

    // Goes past `n` good words.
    pub fn all_good<F: Fn(u32) -> bool>(&mut self, n: u32, good: F) -> Result<(), Bad>
        requires { F.IsAlwaysCallable good }
        ensures { (ok : ℕ → Bool) → Tests (F.post good) ok → GoesPast (all (λ i. word ok) (numbers n)) self.old result self.new }
    {
        // A copy keeps the index in a register: a seventh fewer instructions on a sheet of arcs.
        let mut walk = *self;
        for _ in 0..n {
            walk.word(&good)?;
        }
        *self = walk;
        Ok(())
    }
}
