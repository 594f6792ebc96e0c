// The check of a sheet's words, which notes where each rule begins.
#![tactic(auto)]

ghost use Rattle.std.specs.Prelude.{◌≡◌};
ghost use Rattle.model.specs.Answers.{said};
ghost use Rattle.model.specs.Calls.{sheet_said};
ghost use Rattle.model.specs.Sheet.{sheet};
ghost use Rattle.sheet_walk.specs.Walks.{GoesPast};
ghost use Rattle.sheet_rules.specs.Places.{Places};

use layout::{EDITION, MOST_RULES, MOST_STATES, MOST_TAGS, MOST_WORDS};
use model::Refusal;
use sheet_rules::rules;
use sheet_walk::{Bad, Walk};

// Goes past a whole sheet; from the first word on, where each rule begins goes to its entry of `places`, as far as that goes.
fn whole(walk: &mut Walk, places: &mut [usize]) -> Result<(), Bad>
    ensures end { GoesPast sheet walk.old result walk.new }
    ensures places { walk.old.at ≡ 0 → Places walk.old.words.now places.new }
{
    walk.between(EDITION, EDITION)?;
    let p = walk.between(1, MOST_STATES)?;
    walk.set_below(p)?;
    let g = walk.between(1, MOST_TAGS)?;
    let n = walk.between(0, MOST_RULES)?;
    rules(walk, n, p, g, places)
}

// The number of a sheet's words, or 9 with the place of the first bad one; where each rule begins goes to `places`.
pub fn check_noting(sheet: &[u32], places: &mut [usize]) -> Result<usize, Refusal>
    ensures answer { said result ≡ sheet_said sheet.now }
    ensures places { Places sheet.now places.new }
{
    let n = sheet.len();
    let words = &sheet[..n.min(MOST_WORDS)];
    let mut walk = Walk { words, at: 0 };
    whole(&mut walk, places)?;
    if walk.at == n {
        return Ok(n);
    }
    Err(Refusal::Sheet(walk.at))
}
