// Count parts: how often each state occurs, signed sums of these numbers, and steps over earlier steps.
#![tactic(auto)]

ghost use Rattle.std.specs.Prelude.{◌≡◌, ◌+◌, ◌*◌, ◌^◌, ◌<◌, length, replicate, pos, nat_abs, ◌+ℤ◌, ◌*ℤ◌};
ghost use Rattle.judge_order.specs.Order.{states_of};
ghost use Rattle.judge_count.specs.Count.{Occurs, FewCounted, CountPart, CountSays, SumFirst, Summed, AtMost, Leaves, StepFirst, StepSays};

use judge_order::Children;
use layout::{AND, AT_MOST, NOT, OR, REMAINDER};

pub const STATES: usize = 64;

// How often each state occurs among the children of an element.
#[derive(Clone, Copy)]
pub struct Counts<'a> {
    pub each: &'a [u32],
    pub ghost few: { FewCounted each.now },
}

// A sum, and the words after it.
#[derive(Clone, Copy)]
struct Sum<'a> {
    total: i32,
    rest: &'a [u32],
}

// Whether a step holds, and the words after it.
// kept: holds and rest both say something at each value, since a step that doesn't hold has words after it too
#[derive(Clone, Copy)]
struct Step<'a> {
    holds: bool,
    rest: &'a [u32],
}

// How often each state occurs among children, to counts that are all 0.
pub fn occurrences(children: Children, counts: &mut [u32; STATES])
    requires { counts.old ≡ replicate 64 0 }
    ensures { Occurs counts.new (states_of children.entry.words.now) }
{
    for word in children.words {
        let q = (*word - 1) as usize;
        counts[q] += 1;
    }
}

// A coefficient times a count, and what was summed before.
fn plus_times(total: i32, times: i32, count: u32) -> i32
    requires { (nat_abs total + nat_abs times * count < 2 ^ 31) × (count < 2 ^ 31) }
    ensures { result ≡ total +ℤ (times *ℤ pos count) }
{
    total + times * (count as i32)
}

impl<'a> Sum<'a> {
    // A step of kind 1: a sum is at most the bound after it.
    fn at_most(&self) -> Step<'a>
        requires { 0 < length self.now.rest.now }
        ensures { AtMost self.now.rest.now self.now.total result.rest.now result.holds }
    {
        Step {
            holds: self.total <= self.rest[0].cast_signed(),
            rest: &self.rest[1..],
        }
    }

    // A step of kind 2: a sum leaves a remainder on division by a modulus, which are after it.
    fn remainder(&self) -> Step<'a>
        requires { 1 < length self.now.rest.now }
        ensures { Leaves self.now.rest.now self.now.total result.rest.now result.holds }
    {
        Step {
            holds: bits::remainder(self.total, self.rest[0]) == self.rest[1],
            rest: &self.rest[2..],
        }
    }
}

impl Counts<'_> {
    // The sum whose words come first: the coefficient of each marked state times its occurrences.
    fn sum<'w>(&self, words: &'w [u32]) -> Sum<'w>
        requires { SumFirst words.now }
        ensures { Summed words.now self.now.each.now result.rest.now result.total }
    {
        let marks = bits::of_words(words[0], words[1]);
        let mut rest = &words[2..];
        let mut total: i32 = 0;
        for q in bits::members(marks) {
            let times = rest[0].cast_signed();
            total = plus_times(total, times, self.each[q as usize]);
            rest = &rest[1..];
        }
        Sum { total, rest }
    }

    // The step whose words come first, by its kind; bit i of `truths` says whether step i holds.
    #[tactic(auto, using(crate::proofs::StepLaws::step_rooms))]
    fn step<'w>(&self, words: &'w [u32], truths: u64) -> Step<'w>
        requires { StepFirst words.now }
        ensures { StepSays words.now self.now.each.now truths result.rest.now result.holds }
    {
        // kept: document 01's form, a match over step kinds
        match words[0] {
            AT_MOST => self.sum(&words[1..]).at_most(),
            REMAINDER => self.sum(&words[1..]).remainder(),
            NOT => Step {
                holds: !bits::has(truths, words[1]),
                rest: &words[2..],
            },
            AND => Step {
                holds: bits::has(truths, words[1]) & bits::has(truths, words[2]),
                rest: &words[3..],
            },
            OR => Step {
                holds: bits::has(truths, words[1]) | bits::has(truths, words[2]),
                rest: &words[3..],
            },
            // no other kind passes the check of a sheet
            _ => Step {
                holds: false,
                rest: words,
            },
        }
    }

    // Whether children whose states occur so often fit a count part: the last step decides.
    pub fn fit(&self, part: &[u32]) -> bool
        requires { CountPart part.now }
        ensures { CountSays part.now self.now.each.now result }
    {
        let steps = part[0];
        let mut rest = &part[1..];
        let mut truths: u64 = 0;
        for i in 0..steps {
            let step = self.step(rest, truths);
            truths = bits::with_if(step.holds, truths, i);
            rest = step.rest;
        }
        bits::has(truths, steps - 1)
    }
}
