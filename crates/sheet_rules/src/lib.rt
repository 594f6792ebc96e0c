// The rules of a sheet.
#![tactic(auto)]

ghost use Rattle.std.specs.Prelude.{◌≡◌, set};
ghost use Rattle.model.specs.Lists.{numbers};
ghost use Rattle.model.specs.Sheet.{rule, all};
ghost use Rattle.sheet_walk.specs.Walks.{GoesPast};
ghost use Rattle.sheet_rules.specs.Places.{Begins};

use layout::{CONTENT_RULE, COUNT_RULE, ORDER_COUNT_RULE, ORDER_RULE, TAG_RULE, TEXT_RULE};
use sheet_count::count_part;
use sheet_order::order_part;
use sheet_walk::{Bad, Walk};

// Goes past a rule over `p` states and `g` tags: its fields are by its map, and its target state is the last.
// kept: `p` is read by the walk itself; a walk that has it would be another type from there on, with the same methods once more
fn rule(walk: &mut Walk, p: u32, g: u32) -> Result<(), Bad>
    ensures { GoesPast (rule p g) walk.old result walk.new }
{
    let at = walk.at;
    // kept: document 01's form, a match over rule maps, all other numbers refused
    match walk.any_word()? {
        TEXT_RULE => {
            walk.between(1, 2)?;
        }
        TAG_RULE => {
            walk.between(1, g)?;
            walk.below(p)?;
        }
        CONTENT_RULE => {}
        ORDER_RULE => order_part(walk, p)?,
        COUNT_RULE => count_part(walk, p)?,
        ORDER_COUNT_RULE => {
            order_part(walk, p)?;
            count_part(walk, p)?;
        }
        _ => return Err(Bad(at)),
    }
    walk.below(p)
}

// Entry i of a table is this place, if the table goes so far.
// kept: tried with get_mut, after which no fact tells what the table holds, so the proof didn't close
fn put_place(places: &mut [usize], i: u32, place: usize)
    ensures { places.new ≡ set places.old i place }
{
    let k = i as usize;
    if k < places.len() {
        places[k] = place;
    }
}

// Goes past `n` rules; where each begins goes to its entry of `places`, as far as that goes.
pub fn rules(walk: &mut Walk, n: u32, p: u32, g: u32, places: &mut [usize]) -> Result<(), Bad>
    ensures end { GoesPast (all (λ i. rule p g) (numbers n)) walk.old result walk.new }
    ensures places { Begins p g n walk.old.words.now walk.old.at places.new }
{
    for i in 0..n {
        put_place(places, i, walk.at);
        rule(walk, p, g)?;
    }
    Ok(())
}
