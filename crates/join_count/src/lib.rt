// Count parts of joint rules: one alone lifted to pairs of states, and two joined.
#![tactic(auto)]

ghost use Rattle.std.specs.Prelude.{◌≡◌, ◌≤◌, get_or};
ghost use Rattle.page.specs.Page.{Writes};
ghost use Rattle.join_pairs.specs.Sides.{own_states};
ghost use Rattle.join_count.specs.Counts.{SomeCount, SomeSteps, LiftsCount, JoinsCounts};

use indexed::Part;
use join_pairs::{Both, Half, Side, Sizes};
use join_sum::{Sum, lift_sum};
use layout::{AND, REMAINDER};
use page::Page;

// where a sum's coefficients are among the words of its step: after the kind and two words of marks
const TIMES: usize = 3;

// The steps of a count part that are left: the words of its sheet, the index of the next one's first word, and how many they are.
#[derive(Clone, Copy)]
pub struct Steps<'a> {
    pub words: &'a [u32],
    pub at: usize,
    pub left: u32,
    pub ghost there: { ∥ SomeSteps words.now at left ∥₁ },
}

impl<'a> Steps<'a> {
    ghost use Rattle.join_count.specs.Counts.{SomeCountPart, StepsOf};

    // Those of a count part, all of them.
    pub fn of(part: Part<'a>) -> Steps<'a>
        requires { SomeCountPart part }
        ensures { StepsOf part.entry result.words.now result.at result.left }
    {
        let Part { words, at } = part;
        Steps {
            words,
            at: at + 1,
            left: parts::at(words, at),
        }
    }
}

impl<'a> Iterator for Steps<'a> {
    ghost use Rattle.std.specs.Iterator.{at_most};
    ghost use Rattle.join_count.specs.Walks.{NextStep};

    type Item = &'a [u32];

    ghost next_gives = { NextStep };

    ghost remaining = { λ s. at_most s.left };

    fn next(&mut self) -> Option<&'a [u32]> {
        if self.left == 0 {
            return None;
        }
        let Steps { words, at, left } = *self;
        let end = at + parts::step_length(words, at);
        *self = Steps {
            words,
            at: end,
            left: left - 1,
        };
        Some(&words[at..end])
    }
}

// How steps are lifted: of which sheet they are, and by how much step numbers are shifted.
#[derive(Clone, Copy)]
struct Lift {
    half: Half,
    shift: u32,
    ghost small: { shift ≤ 32 },
}

impl Lift {
    ghost use Rattle.join_count.specs.Steps.{SomeStep, LiftsStep, LiftsSteps};

    // Writes a step that begins with a sum, lifted: after the sum it has as many words more as the number of its kind.
    fn put_sum_step(self, step: &[u32], page: &mut Page)
        requires { SomeStep self step.now × (get_or step.now 0 0 ≤ 2) }
        ensures { LiftsStep self step.now (λ ws. Writes page.old ws page.new) }
    {
        let kind = step[0];
        let end = step.len() - kind as usize;
        let sum = Sum {
            marks: parts::set_at(step, 1),
            times: &step[TIMES..end],
        };
        page.put(kind);
        lift_sum(sum, self.half, page);
        page.copy(&step[end..]);
    }

    // Writes a step, lifted. One that refers to one or two steps has their numbers shifted.
    fn put_step(self, step: &[u32], page: &mut Page)
        requires { SomeStep self step.now }
        ensures { LiftsStep self step.now (λ ws. Writes page.old ws page.new) }
    {
        let kind = step[0];
        // kept: document 01's kinds are numbers: 1 and 2 are steps with a sum, 3 to 5 have numbers of steps alone and are written alike
        if kind <= REMAINDER {
            self.put_sum_step(step, page);
            return;
        }
        page.put(kind);
        for number in &step[1..] {
            page.put(self.shift + *number);
        }
    }

    // Writes the steps of a count part, lifted.
    fn put_steps(self, part: Part, page: &mut Page)
        requires { SomeCount (own_states self.half) part }
        ensures { LiftsSteps self part.entry (λ ws. Writes page.old ws page.new) }
    {
        for step in Steps::of(part) {
            self.put_step(step, page);
        }
    }
}

// How many steps a count part has.
fn step_count(part: Part) -> u32
    ensures { result ≡ get_or part.entry.words.now part.entry.at 0 }
{
    parts::at(part.words, part.at)
}

// Writes a count part, lifted.
// kept: a part is of a rule, a half of a sheet, known for all its rules; a struct of both would be made at each call and taken apart in it
pub fn lift_count(part: Part, half: Half, page: &mut Page)
    requires { SomeCount (own_states half) part }
    ensures { LiftsCount half part.entry (λ ws. Writes page.old ws page.new) }
{
    page.put(step_count(part));
    Lift { half, shift: 0 }.put_steps(part, page);
}

// Writes the count parts of S and T, lifted, one after the other, the steps of T shifted past those of S, closed by an `and` of
// their last steps.
pub fn join_counts(parts: Both<Part>, sizes: Sizes, page: &mut Page)
    requires { SomeCount sizes.s parts.s × SomeCount sizes.t parts.t }
    ensures { JoinsCounts sizes parts.entry (λ ws. Writes page.old ws page.new) }
{
    let m = step_count(parts.s);
    let n = step_count(parts.t);
    page.put(m + n + 1);
    let of_s = Lift {
        half: sizes.half(Side::S),
        shift: 0,
    };
    of_s.put_steps(parts.s, page);
    let of_t = Lift {
        half: sizes.half(Side::T),
        shift: m,
    };
    of_t.put_steps(parts.t, page);
    page.copy(&[AND, m - 1, m + (n - 1)]);
}
