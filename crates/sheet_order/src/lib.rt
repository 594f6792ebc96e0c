// An order part of a sheet: number of positions, accepting positions, number of arcs, the arcs.
#![tactic(auto)]

ghost use Rattle.std.specs.Prelude.{◌≡◌};
ghost use Rattle.model.specs.Sheet.{arc_ok, order};
ghost use Rattle.sheet_walk.specs.Walks.{GoesPast};

use bits::Arc;
use layout::{MOST_ARCS, MOST_POSITIONS};
use sheet_walk::{Bad, Walk};

// Whether an arc word leaves and enters positions below `m` and reads a state below `p`, with nothing above bit 23.
fn arc_good(w: u32, p: u32, m: u32) -> bool
    ensures { result ≡ arc_ok p m w }
{
    let arc = Arc::from(w);
    (arc.leaves < m) & (arc.reads < p) & (arc.enters < m) & (w >> 24 == 0)
}

// Goes past an order part over `p` states.
// kept: `p` is read by the walk itself; a walk that has it would be another type from there on, with the same methods once more
pub fn order_part(walk: &mut Walk, p: u32) -> Result<(), Bad>
    ensures { GoesPast (order p) walk.old result walk.new }
{
    let m = walk.between(1, MOST_POSITIONS)?;
    walk.set_below(m)?;
    let n = walk.between(0, MOST_ARCS)?;
    walk.all_good(n, |w| arc_good(w, p, m))
}
