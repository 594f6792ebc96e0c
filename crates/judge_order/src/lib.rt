// Order parts: child states read through sets of positions, and how many children are read.
#![tactic(auto)]

ghost use Rattle.std.specs.Prelude.{List, map, ℕ};
ghost use Rattle.model.specs.Sheet.{arc_of};
ghost use Rattle.model.specs.Words.{next_set};
ghost use Rattle.bits.specs.Stands.{Stands};
ghost use Rattle.judge_order.specs.Order.{StateWords, states_of, OrderPart, ArcWords, Read, OrderSays};

use bits::Arc;

// where the two words of accepting positions, and the arcs, are in an order part
const ACCEPTING: usize = 1;

const ARCS: usize = 4;

// the set of position 0 alone, with which reading begins
const START: u64 = 1;

// The state words of an element's children: each is one more than a state.
#[derive(Clone, Copy)]
pub struct Children<'a> {
    pub words: &'a [u32],
    pub ghost states: { StateWords words.now },
}

// Whether children fit, and how many of them are read.
// kept: fits and reads both say something at each value, since the reads count as looks whether the children fit or not
#[derive(Clone, Copy)]
pub struct Reading {
    pub fits: bool,
    pub reads: usize,
}

// The set of positions after a child's state is read.
fn next_set(arcs: &[u32], set: u64, state: u32) -> u64
    requires { ArcWords arcs.now }
    ensures { (l : List ℕ) → Stands set l → Stands result (next_set (map arc_of arcs.now) l state) }
{
    let mut next: u64 = 0;
    for word in arcs {
        let arc = Arc::from(*word);
        // a branch: most arcs read another state
        if arc.reads == state {
            next = bits::with_if(bits::has(set, arc.leaves), next, arc.enters);
        }
    }
    next
}

// The positions after children up to and with the one that empties the set, and how many are read.
fn read_all(arcs: &[u32], children: Children) -> (u64, usize)
    requires { ArcWords arcs.now }
    ensures { Read arcs.now children.entry.words.now result.0 result.1 }
{
    let mut set = START;
    let mut reads: usize = 0;
    // kept: the number is asked after the loop too, where that of `enumerate` is gone, so that a count by hand would stand beside it
    for word in children.words {
        set = next_set(arcs, set, *word - 1);
        // the child that empties the set is read too
        reads += 1;
        if set == 0 {
            return (set, reads);
        }
    }
    (set, reads)
}

// Whether children fit an order part, and how many of them it reads.
pub fn read_order(part: &[u32], children: Children) -> Reading
    requires { OrderPart part.now }
    ensures { OrderSays part.now (states_of children.entry.words.now) result.fits result.reads }
{
    let accepting = bits::of_words(part[ACCEPTING], part[ACCEPTING + 1]);
    let (last, reads) = read_all(&part[ARCS..], children);
    Reading {
        fits: bits::meet(last, accepting),
        reads,
    }
}
