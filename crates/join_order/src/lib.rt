// Order parts of joint rules: one alone lifted to pairs of states, and two paired.
#![tactic(auto)]

ghost use Rattle.std.specs.Prelude.{◌≡◌, [], ◌∷◌, ℕ, ◌+◌, ◌*◌, ◌/◌, ◌%◌, ◌^◌, ◌≤◌};
ghost use Rattle.model.specs.Lists.{row};
ghost use Rattle.model.specs.Sheet.{Order, W};
ghost use Rattle.model.specs.Spans.{OrderAt};
ghost use Rattle.page.specs.Page.{Writes};
ghost use Rattle.join_pairs.specs.Sides.{side_of, sizes_of, own_states};
ghost use Rattle.join_order.specs.Orders.{lifted_row, paired_arc, SomeOrder, PairableOrders, LiftsOrder, PairsOrders, OrderOf};

use bits::Arc;
use indexed::Part;
use join_pairs::{Both, Half, Sizes, pair};
use page::Page;
use sets::pair_set;

// the words before the arcs: the number of positions, two words of accepting positions, the number of arcs
const HEAD: usize = 4;

// The word of an arc: from the top the position it leaves, the state it reads, the position it enters, a byte each. A conversion of
// `Arc` itself could ask for no such bounds.
fn arc_word(arc: Arc) -> u32
    requires { (arc.leaves ≤ 16575) × (arc.reads ≤ 16575) × (arc.enters ≤ 16575) }
    ensures { result ≡ arc.leaves * 2 ^ 16 + arc.reads * 2 ^ 8 + arc.enters }
{
    (arc.leaves << 16) + (arc.reads << 8) + arc.enters
}

// Writes an arc once for each state of the other sheet, reading its state beside that one.
// kept: the half tells how it is written, the page where to; a half is copied, a page is lent on and changes
fn lift_row(word: u32, half: Half, page: &mut Page)
    ensures { Writes page.old (lifted_row (side_of half.side) (sizes_of half.sizes) word) page.new }
{
    let arc = Arc::from(word);
    for other in 0..half.other() {
        let reads = half.beside(arc.reads, other);
        page.put(arc_word(Arc { reads, ..arc }));
    }
}

// An arc of S and an arc of T in one, where T's part has `m` positions.
fn pair_arc(v: u32, w: u32, m: u32, sizes: Sizes) -> u32
    requires { m ≤ 64 }
    ensures { result ≡ paired_arc m sizes.t v w }
{
    let a = Arc::from(v);
    let b = Arc::from(w);
    arc_word(Arc {
        leaves: pair(m, a.leaves, b.leaves),
        reads: sizes.pair(a.reads, b.reads),
        enters: pair(m, a.enters, b.enters),
    })
}

// Writes an arc of S paired with each arc of T's part, which has `m` positions.
// kept: the sizes tell how it is written, the page where to, as in `lift_row`
fn pair_row(v: u32, arcs: &[u32], m: u32, sizes: Sizes, page: &mut Page)
    requires { m ≤ 64 }
    ensures { Writes page.old (row (paired_arc m sizes.t) arcs.now v) page.new }
{
    for w in arcs {
        page.put(pair_arc(v, *w, m, sizes));
    }
}

// What an order part has: how many positions, which of them accept, and the words of its arcs.
#[derive(Clone, Copy)]
struct OrderPart<'a> {
    positions: u32,
    accepting: u64,
    arcs: &'a [u32],
}

// The order part that a part is.
// kept: asks that the part is an order part, as no From can
#[tactic(auto, using(crate::proofs::OrderWords::order_end))]
fn order_of(part: Part) -> OrderPart
    requires { (p : ℕ) × SomeOrder p part }
    ensures { (p : ℕ) (o : Order) → OrderAt p part.entry.words.now part.entry.at o → OrderOf o result }
{
    let Part { words, at } = part;
    let arcs = at + HEAD;
    OrderPart {
        positions: parts::at(words, at),
        accepting: parts::set_at(words, at + 1),
        arcs: &words[arcs..arcs + parts::field(words, at, 3) as usize],
    }
}

// Writes what comes before the arcs of an order part.
fn put_head(positions: u32, accepting: u64, arcs: u32, page: &mut Page)
    ensures { Writes page.old (positions ∷ accepting % W ∷ accepting / W ∷ arcs ∷ []) page.new }
{
    page.put(positions);
    page.put_set(accepting);
    page.put(arcs);
}

// Writes an order part, lifted.
pub fn lift_order(part: Part, half: Half, page: &mut Page)
    requires { SomeOrder (own_states half) part }
    ensures { LiftsOrder half part.entry (λ ws. Writes page.old ws page.new) }
{
    let order = order_of(part);
    let arcs = order.arcs.len() as u32 * half.other();
    put_head(order.positions, order.accepting, arcs, page);
    for arc in order.arcs {
        lift_row(*arc, half, page);
    }
}

// Writes the order part of all pairs of positions and of arcs of two order parts, S's order outermost.
pub fn pair_order(parts: Both<Part>, sizes: Sizes, page: &mut Page)
    requires { PairableOrders sizes parts }
    ensures { PairsOrders sizes parts.entry (λ ws. Writes page.old ws page.new) }
{
    let s = order_of(parts.s);
    let t = order_of(parts.t);
    let accepting = pair_set(s.positions, t.positions, s.accepting, t.accepting);
    let arcs = s.arcs.len() as u32 * t.arcs.len() as u32;
    put_head(s.positions * t.positions, accepting, arcs, page);
    for v in s.arcs {
        pair_row(*v, t.arcs, t.positions, sizes, page);
    }
}
