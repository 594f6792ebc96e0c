// A count part of a sheet: number of steps, the steps.
#![tactic(auto)]

ghost use Rattle.std.specs.Prelude.{◌≡◌, ℕ, ◌&&◌};
ghost use Rattle.model.specs.Sheet.{W, Step, below, small, signed, sum, at_most_step, remainder_step, two_earlier, step, steps};
ghost use Rattle.sheet_walk.specs.Walks.{GoesPast};

use layout::{AND, AT_MOST, MOST_STEPS, NOT, OR, REMAINDER};
use sheet_walk::{Bad, Walk};

const LARGEST_MODULUS: u32 = 1000;

// Whether a word is a coefficient, from −32,768 to 32,767 and not 0, in two's complement.
fn coefficient_good(w: u32) -> bool
    ensures { result ≡ below W w && small (signed w) }
{
    ((1 <= w) & (w <= 0x7FFF)) | (0xFFFF_8000 <= w)
}

// Goes past the marks of states below `p` and a coefficient for each mark.
// kept: `p` is read by the walk itself; a walk that has it would be another type from there on, with the same methods once more
fn sum(walk: &mut Walk, p: u32) -> Result<(), Bad>
    ensures { GoesPast (sum p) walk.old result walk.new }
{
    let marks = walk.set_below(p)?;
    walk.all_good(bits::size(marks), coefficient_good)
}

// Goes past the fields of an at-most step: a sum and a bound.
fn at_most(walk: &mut Walk, p: u32) -> Result<(), Bad>
    ensures { GoesPast (at_most_step p) walk.old result walk.new }
{
    sum(walk, p)?;
    walk.any_word()?;
    Ok(())
}

// Goes past the fields of a remainder step: a sum, a modulus and a remainder below it.
fn remainder(walk: &mut Walk, p: u32) -> Result<(), Bad>
    ensures { GoesPast (remainder_step p) walk.old result walk.new }
{
    sum(walk, p)?;
    let modulus = walk.between(1, LARGEST_MODULUS)?;
    walk.below(modulus)
}

// Goes past the numbers of two steps below `i`.
fn two_below(walk: &mut Walk, i: u32) -> Result<(), Bad>
    ensures { (f : ℕ → ℕ → Step) → GoesPast (two_earlier f i) walk.old result walk.new }
{
    walk.below(i)?;
    walk.below(i)
}

// Goes past step `i`, by its kind.
fn step(walk: &mut Walk, p: u32, i: u32) -> Result<(), Bad>
    ensures { GoesPast (step p i) walk.old result walk.new }
{
    let at = walk.at;
    // kept: document 01's form, a match over step kinds, all other numbers refused
    match walk.any_word()? {
        AT_MOST => at_most(walk, p),
        REMAINDER => remainder(walk, p),
        NOT => walk.below(i),
        AND => two_below(walk, i),
        OR => two_below(walk, i),
        _ => Err(Bad(at)),
    }
}

// Goes past a count part over `p` states.
pub fn count_part(walk: &mut Walk, p: u32) -> Result<(), Bad>
    ensures { GoesPast (steps p) walk.old result walk.new }
{
    let n = walk.between(1, MOST_STEPS)?;
    for i in 0..n {
        step(walk, p, i)?;
    }
    Ok(())
}
