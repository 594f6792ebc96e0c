// How large the rules of two sheets are, and the joint rule of two.
#![tactic(auto)]

ghost use Rattle.std.specs.Prelude.{◌≡◌, ◌-◌, ◌^◌, ◌≤◌, length};
ghost use Rattle.indexed.specs.Spots.{parts_of};
ghost use Rattle.indexed.specs.Rules.{rule_of};
ghost use Rattle.join_pairs.specs.Sides.{side_of, sizes_of, own_states};
ghost use Rattle.join_count.specs.Counts.{SomeCount, LiftsCount};
ghost use Rattle.join_extents.specs.Extents.{coefficients_at, OfSide, order_size, lifted_size, extent_of, fixed_words};
ghost use Rattle.join_extents.specs.Extents.{positions_in, arcs_in, steps_in, words_in, words_of};
ghost use Rattle.join_extents.specs.Extents.{joint_order_size, joint_count_size, joint_extent};
ghost use Rattle.join_extents.specs.Extents.{SmallOrder, SmallCount, Small, Fits};

use indexed::{Part, Spot};
use join_count::Steps;
use join_pairs::{Half, Sizes};
use layout::{REMAINDER, TAG_RULE, TEXT_RULE};
use parts::{at, field};

// the words of an order part before its arcs
const ORDER_HEAD: usize = 4;

// How many positions and arcs an order part has.
#[derive(Clone, Copy)]
pub struct OrderSize {
    pub positions: u32,
    pub arcs: u32,
}

// How many steps a count part has, and how many words over the pairs of states.
#[derive(Clone, Copy)]
pub struct CountSize {
    pub steps: u32,
    pub words: usize,
}

// The sizes of a rule's parts.
#[derive(Clone, Copy)]
pub struct Extent {
    pub order: Option<OrderSize>,
    pub count: Option<CountSize>,
}

// How many coefficients a step has.
fn coefficients(step: &[u32]) -> usize
    ensures { result ≡ coefficients_at step.now 0 }
{
    if REMAINDER < at(step, 0) {
        return 0;
    }
    let marks = bits::of_words(field(step, 0, 1), field(step, 0, 2));
    bits::size(marks) as usize
}

// The number of words of a count part, lifted: it has each coefficient for every state of the other sheet.
fn lifted_length(part: Part, half: Half) -> usize
    requires { SomeCount (own_states half) part }
    ensures is { LiftsCount half part.entry (λ ws. result ≡ length ws) }
    ensures small { result ≤ 2 ^ 18 }
{
    let more = half.other() as usize - 1;
    let mut lifted = 1;
    for step in Steps::of(part) {
        lifted += step.len() + coefficients(step) * more;
    }
    lifted
}

// The size of a rule's order part, if it has one.
fn order_size(spot: &Spot) -> Option<OrderSize>
    ensures is { result ≡ order_size (parts_of (rule_of spot.now)).order }
    ensures small { SmallOrder result }
{
    let part = spot.order_part()?;
    Some(OrderSize {
        positions: at(part.words, part.at),
        arcs: field(part.words, part.at, 3),
    })
}

// The size of a rule's count part, lifted, if it has one.
fn count_size(spot: &Spot, half: Half) -> Option<CountSize>
    requires { OfSide half spot.now }
    ensures is { result ≡ lifted_size (side_of half.side) (sizes_of half.sizes) (parts_of (rule_of spot.now)).count }
    ensures small { SmallCount result }
{
    let part = spot.count_part()?;
    Some(CountSize {
        steps: at(part.words, part.at),
        words: lifted_length(part, half),
    })
}

// The extent of a rule of a sheet, its count part lifted.
pub fn extent_at(spot: &Spot, half: Half) -> Extent
    requires { OfSide half spot.now }
    ensures is { result ≡ extent_of (side_of half.side) (sizes_of half.sizes) (rule_of spot.now) }
    ensures small { Small result }
{
    Extent {
        order: order_size(spot),
        count: count_size(spot, half),
    }
}

// The size of the joint order part of two rules, if it has one.
fn joint_order(x: Option<OrderSize>, y: Option<OrderSize>, sizes: Sizes) -> Option<OrderSize>
    requires { SmallOrder x × SmallOrder y }
    ensures is { result ≡ joint_order_size (sizes_of sizes) x y }
    ensures few { arcs_in result ≤ 2 ^ 20 }
{
    match (x, y) {
        (None, None) => None,
        (Some(o), None) => Some(OrderSize {
            positions: o.positions,
            arcs: o.arcs * sizes.t,
        }),
        (None, Some(u)) => Some(OrderSize {
            positions: u.positions,
            arcs: u.arcs * sizes.s,
        }),
        (Some(o), Some(u)) => Some(OrderSize {
            positions: o.positions * u.positions,
            arcs: o.arcs * u.arcs,
        }),
    }
}

// The size of the joint count part of two rules, if it has one.
fn joint_count(x: Option<CountSize>, y: Option<CountSize>) -> Option<CountSize>
    requires { SmallCount x × SmallCount y }
    ensures is { result ≡ joint_count_size x y }
    ensures few { words_in result ≤ 2 ^ 20 - 8 }
{
    match (x, y) {
        // the `and` that closes the steps has three words; the number of steps stands once
        (Some(c), Some(d)) => Some(CountSize {
            steps: c.steps + d.steps + 1,
            words: c.words + d.words + 2,
        }),
        _ => x.or(y),
    }
}

// The number of a rule's words that are in none of its parts.
pub fn fixed_words(spot: &Spot) -> usize
    ensures is { result ≡ fixed_words (rule_of spot.now) }
    ensures few { result ≤ 4 }
{
    // kept: document 01's form, a match over rule maps
    match spot.map() {
        TEXT_RULE => 3,
        TAG_RULE => 4,
        _ => 2,
    }
}

impl Extent {
    // The extent of the joint rule of two rules.
    pub fn joint(self, other: Extent, sizes: Sizes) -> Extent
        requires { Small self × Small other }
        ensures is { result ≡ joint_extent (sizes_of sizes) self other }
        ensures fits { Fits result }
    {
        Extent {
            order: joint_order(self.order, other.order, sizes),
            count: joint_count(self.count, other.count),
        }
    }

    // How many positions the order part has, if there is one.
    pub fn positions(self) -> u32
        ensures { result ≡ positions_in self.order }
    {
        self.order.map_or(0, |o| o.positions)
    }

    // How many arcs the order part has, if there is one.
    pub fn arcs(self) -> u32
        ensures { result ≡ arcs_in self.order }
    {
        self.order.map_or(0, |o| o.arcs)
    }

    // How many steps the count part has, if there is one.
    pub fn steps(self) -> u32
        ensures { result ≡ steps_in self.count }
    {
        self.count.map_or(0, |c| c.steps)
    }

    // The number of words of a rule, of which `fixed` are in none of its parts.
    pub fn words(self, fixed: usize) -> usize
        requires { (fixed ≤ 4) × Fits self }
        ensures is { result ≡ words_of fixed self }
        ensures few { result ≤ 2 ^ 21 }
    {
        let order = self.order.map_or(0, |o| ORDER_HEAD + o.arcs as usize);
        fixed + order + self.count.map_or(0, |c| c.words)
    }
}
