// Rules of the two sheets of a join that have one key: these pair up.
#![tactic(auto)]

ghost use Rattle.std.specs.Prelude.{◌≡◌};
ghost use Rattle.model.specs.Index.{key};
ghost use Rattle.indexed.specs.Spots.{rule_in};
ghost use Rattle.join_pairs.specs.Sides.{sizes_of};
ghost use Rattle.join_alike.specs.Joins.{sizes_in};

use indexed::{Chain, IndexedSheet, Spot, Spots};
use join_pairs::Sizes;

// A rule of S and a rule of T that have one key, and how many states the two sheets have.
// kept: the sizes stand in each of these structs beside the sheets that tell them, so that no pair of rules reads them anew
#[derive(Clone, Copy)]
pub struct RulePair<'a> {
    pub s: Spot<'a>,
    pub t: Spot<'a>,
    pub sizes: Sizes,
    pub ghost one_key: { key (rule_in t.sheet.words.now t.rule) ≡ key (rule_in s.sheet.words.now s.rule) },
    pub ghost sized: { sizes_of sizes ≡ sizes_in s.sheet.words.now t.sheet.words.now },
}

// A rule of S that meets the rules of T, and how many states the two sheets have.
#[derive(Clone, Copy)]
pub struct Row<'a> {
    pub rule: Spot<'a>,
    pub others: IndexedSheet<'a>,
    pub sizes: Sizes,
    pub ghost sized: { sizes_of sizes ≡ sizes_in rule.sheet.words.now others.words.now },
}

impl<'a> Row<'a> {
    ghost use Rattle.join_alike.specs.Alike.{row_joint, joint_left};

    // The rule with each rule of T that has its key.
    pub fn pairs(&self) -> Pairs<'a>
        ensures rule { result.rule ≡ self.now.rule }
        ensures others { result.others.sheet ≡ self.now.others }
        ensures sizes { result.sizes ≡ self.now.sizes }
        ensures all { row_joint self.now ≡ joint_left result }
    {
        Pairs {
            rule: self.rule,
            others: self.others.chain(self.rule.key()),
            sizes: self.sizes,
        }
    }
}

// A rule of S with the rules of T that are left of those with its key, and how many states the two sheets have.
#[derive(Clone, Copy)]
pub struct Pairs<'a> {
    pub rule: Spot<'a>,
    pub others: Chain<'a>,
    pub sizes: Sizes,
    pub ghost one_key: { others.key ≡ key (rule_in rule.sheet.words.now rule.rule) },
    pub ghost sized: { sizes_of sizes ≡ sizes_in rule.sheet.words.now others.sheet.words.now },
}

impl<'a> Iterator for Pairs<'a> {
    ghost use Rattle.std.specs.Prelude.{◌-◌, length};
    ghost use Rattle.std.specs.Iterator.{at_most};
    ghost use Rattle.model.specs.Index.{rules_in};
    ghost use Rattle.join_alike.specs.Alike.{NextPair};

    type Item = RulePair<'a>;

    ghost next_gives = { NextPair };

    ghost remaining = { λ p. at_most (length (rules_in p.others.sheet.words.now) - p.others.next) };

    fn next(&mut self) -> Option<RulePair<'a>> {
        // where the chain gives no rule, nothing is told of what is left of it
        let mut others = self.others;
        let t = others.next()?;
        self.others = others;
        Some(RulePair {
            s: self.rule,
            t,
            sizes: self.sizes,
        })
    }
}

// The rules of S that are left, the sheet T, and how many states the two sheets have.
#[derive(Clone, Copy)]
pub struct Rows<'a> {
    pub rules: Spots<'a>,
    pub others: IndexedSheet<'a>,
    pub sizes: Sizes,
    pub ghost sized: { sizes_of sizes ≡ sizes_in rules.sheet.words.now others.words.now },
}

// kept: as `Pairs`, over other items and to other structs; one iterator for both would need a trait for these two alone
impl<'a> Iterator for Rows<'a> {
    ghost use Rattle.std.specs.Prelude.{◌-◌, length};
    ghost use Rattle.std.specs.Iterator.{at_most};
    ghost use Rattle.model.specs.Index.{rules_in};
    ghost use Rattle.join_alike.specs.Alike.{NextRow};

    type Item = Row<'a>;

    ghost next_gives = { NextRow };

    ghost remaining = { λ r. at_most (length (rules_in r.rules.sheet.words.now) - r.rules.next) };

    fn next(&mut self) -> Option<Row<'a>> {
        // where the sheet gives no rule, nothing is told of what is left of it
        let mut rules = self.rules;
        let rule = rules.next()?;
        self.rules = rules;
        Some(Row {
            rule,
            others: self.others,
            sizes: self.sizes,
        })
    }
}

// Two sheets, S and T, and how many states they have.
#[derive(Clone, Copy)]
pub struct Sheets<'a> {
    pub s: IndexedSheet<'a>,
    pub t: IndexedSheet<'a>,
    pub sizes: Sizes,
    pub ghost sized: { sizes_of sizes ≡ sizes_in s.words.now t.words.now },
}

impl<'a> Sheets<'a> {
    ghost use Rattle.join_alike.specs.Alike.{sheets_joint, rows_left};

    // A row for each rule of S.
    pub fn rows(&self) -> Rows<'a>
        ensures sheets { (result.rules.sheet ≡ self.now.s) × (result.others ≡ self.now.t) }
        ensures sizes { result.sizes ≡ self.now.sizes }
        ensures all { sheets_joint self.now ≡ rows_left result }
    {
        Rows {
            rules: self.s.spots(),
            others: self.t,
            sizes: self.sizes,
        }
    }
}
