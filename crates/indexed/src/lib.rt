// A sheet that passes its check, with its index: its rules, all of them or those with one key, and the parts of a rule.
#![tactic(auto)]

ghost use Rattle.std.specs.Prelude.{◌≡◌, ◌+◌, ◌/◌, ◌%◌, ◌^◌, ◌<◌, ◌≤◌, length, get_or};
ghost use Rattle.model.specs.Spans.{there_is, order_part};
ghost use Rattle.model.specs.Index.{Indexed, sheet_in, rules_in, key};
ghost use Rattle.indexed.specs.Spots.{SpotIn, HasKey, parts_of};

use layout::{ENTRIES, KEYS, RULES, STATES};
use parts::{Entry, field, has_count, has_order, key_of, order_length};

// A sheet that passes its check, and its index.
#[derive(Clone, Copy)]
pub struct IndexedSheet<'a> {
    pub words: &'a [u32],
    pub index: &'a [u32],
    pub ghost indexed: { Indexed words.now index.now },
}

impl<'a> IndexedSheet<'a> {
    ghost use Rattle.indexed.specs.Walks.{all_left, chain_left, with_key};

    // How many states it has.
    pub fn states(&self) -> u32
        ensures { result ≡ (sheet_in self.now.words.now).states }
    {
        self.words[STATES]
    }

    // How many rules it has.
    pub fn rules(&self) -> usize
        ensures is { result ≡ length (rules_in self.now.words.now) }
        ensures few { result ≤ 1024 }
    {
        self.words[RULES] as usize
    }

    // The entry of rule k, or the one after the last.
    fn entry(&self, k: usize) -> Entry
        requires { k ≤ length (rules_in self.now.words.now) }
        ensures begin { result.begin ≡ get_or self.now.index.now (67 + k) 0 % 2 ^ 16 }
        ensures next { result.next ≡ get_or self.now.index.now (67 + k) 0 / 2 ^ 16 }
    {
        Entry::from(self.index[ENTRIES + k])
    }

    // Rule k: it ends where the next begins.
    fn spot(&self, k: usize) -> Spot<'a>
        requires { k < length (rules_in self.now.words.now) }
        ensures sheet { result.sheet ≡ self.now }
        ensures rule { result.rule ≡ k }
    {
        Spot {
            sheet: *self,
            rule: k,
            at: self.entry(k).begin,
            target: self.entry(k + 1).begin.saturating_sub(1),
        }
    }

    // Its rules, one after the other.
    pub fn spots(&self) -> Spots<'a>
        ensures sheet { result.sheet ≡ self.now }
        ensures all { all_left result ≡ rules_in self.now.words.now }
    {
        Spots {
            sheet: *self,
            next: 0,
        }
    }

    // Its rules with a key, one after the other.
    pub fn chain(&self, key: usize) -> Chain<'a>
        ensures sheet { result.sheet ≡ self.now }
        ensures key { result.key ≡ key }
        ensures all { chain_left result ≡ with_key key (rules_in self.now.words.now) }
    {
        if KEYS <= key {
            return Chain {
                sheet: *self,
                key,
                next: self.rules(),
            };
        }
        Chain {
            sheet: *self,
            key,
            next: self.index[key] as usize,
        }
    }
}

// ---- a rule

// A rule of a sheet: its number, the index of its first word, and that of its target, which is its last.
#[derive(Clone, Copy)]
pub struct Spot<'a> {
    pub sheet: IndexedSheet<'a>,
    pub rule: usize,
    pub at: usize,
    pub target: usize,
    pub ghost spot: { SpotIn sheet.words.now sheet.index.now rule at target },
}

// A part of a rule: the words of its sheet, and the index of the part's first word.
#[derive(Clone, Copy)]
pub struct Part<'a> {
    pub words: &'a [u32],
    pub at: usize,
}

impl<'a> Spot<'a> {
    ghost use Rattle.indexed.specs.Rules.{rule_of, OrderPartOf, CountPartOf};

    // Its first word.
    pub fn map(&self) -> u32
        ensures { result ≡ get_or self.now.sheet.words.now self.now.at 0 }
    {
        self.sheet.words[self.at]
    }

    // The word k after its first.
    pub fn word(&self, k: usize) -> u32
        ensures { result ≡ get_or self.now.sheet.words.now (self.now.at + k) 0 }
    {
        field(self.sheet.words, self.at, k)
    }

    // Its key.
    pub fn key(&self) -> usize
        ensures is { result ≡ key (rule_of self.now) }
        ensures few { result < 67 }
    {
        key_of(self.map(), self.word(1))
    }

    // Whether it has an order part.
    pub fn has_order(&self) -> bool
        ensures { result ≡ there_is (parts_of (rule_of self.now)).order }
    {
        has_order(self.map())
    }

    // Whether it has a count part.
    pub fn has_count(&self) -> bool
        ensures { result ≡ there_is (parts_of (rule_of self.now)).count }
    {
        has_count(self.map())
    }

    // Its target.
    pub fn target_state(&self) -> u32
        ensures is { result ≡ (parts_of (rule_of self.now)).target }
        ensures few { result < (sheet_in self.now.sheet.words.now).states }
    {
        self.sheet.words[self.target]
    }

    // The part that begins at an index.
    fn part_at(&self, at: usize) -> Part<'a>
        ensures { result ≡ record { words = self.now.sheet.words; at = at } }
    {
        Part {
            words: self.sheet.words,
            at,
        }
    }

    // Its order part, if it has one.
    pub fn order_part(&self) -> Option<Part<'a>>
        ensures { OrderPartOf self.now result }
    {
        self.has_order().then_some(self.part_at(self.at + 1))
    }

    // The index after its map and its order part, if it has one.
    fn after_order(&self) -> usize
        ensures { result ≡ self.now.at + 1 + length (order_part (parts_of (rule_of self.now)).order) }
    {
        match self.order_part() {
            Some(part) => part.at + order_length(part.words, part.at),
            None => self.at + 1,
        }
    }

    // Its count part, if it has one.
    pub fn count_part(&self) -> Option<Part<'a>>
        ensures { CountPartOf self.now result }
    {
        // kept: with `then(|| ..)` the proof of CountPartOf didn't close: nothing was known there of the part that the closure makes
        if !self.has_count() {
            return None;
        }
        Some(self.part_at(self.after_order()))
    }
}

// ---- rules one after the other

// The rules of a sheet from a number on.
#[derive(Clone, Copy)]
pub struct Spots<'a> {
    pub sheet: IndexedSheet<'a>,
    pub next: usize,
}

impl<'a> Iterator for Spots<'a> {
    ghost use Rattle.std.specs.Prelude.{◌-◌};
    ghost use Rattle.std.specs.Iterator.{at_most};
    ghost use Rattle.indexed.specs.Walks.{NextSpot};

    type Item = Spot<'a>;

    ghost next_gives = { NextSpot };

    ghost remaining = { λ s. at_most (length (rules_in s.sheet.words.now) - s.next) };

    fn next(&mut self) -> Option<Spot<'a>> {
        let k = self.next;
        if self.sheet.rules() <= k {
            return None;
        }
        self.next = k + 1;
        Some(self.sheet.spot(k))
    }
}

// The rules of a sheet with a key, from the one with a number on: the index tells the first, and each rule's entry the next.
#[derive(Clone, Copy)]
pub struct Chain<'a> {
    pub sheet: IndexedSheet<'a>,
    pub key: usize,
    pub next: usize,
    pub ghost on_chain: { HasKey sheet.words.now next key },
}

impl<'a> Iterator for Chain<'a> {
    ghost use Rattle.std.specs.Prelude.{◌-◌};
    ghost use Rattle.std.specs.Iterator.{at_most};
    ghost use Rattle.indexed.specs.Walks.{NextAlike};

    type Item = Spot<'a>;

    ghost next_gives = { NextAlike };

    ghost remaining = { λ c. at_most (length (rules_in c.sheet.words.now) - c.next) };

    fn next(&mut self) -> Option<Spot<'a>> {
        let k = self.next;
        if self.sheet.rules() <= k {
            return None;
        }
        self.next = self.sheet.entry(k).next;
        Some(self.sheet.spot(k))
    }
}
