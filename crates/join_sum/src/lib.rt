// Sums of joint count parts: a sum of one sheet lifted to pairs of states.
#![tactic(auto)]

ghost use Rattle.page.specs.Page.{Writes};
ghost use Rattle.join_sum.specs.Sums.{LiftsSum};

use join_pairs::{Half, Side};
use page::Page;
use sets::{ALL, pair_set};

// What a sum has: the states that are marked, and the words of their coefficients, lowest state first.
#[derive(Clone, Copy)]
pub struct Sum<'a> {
    pub marks: u64,
    pub times: &'a [u32],
}

// Writes a sum, lifted: the pairs whose half is marked, the other half any state, then for each of these pairs, in ascending order,
// the coefficient of its half. The pairs of a state of S are a row, one for each state of T: a coefficient of S is written that
// often in a row, and all those of T in each row.
pub fn lift_sum(sum: Sum, half: Half, page: &mut Page)
    ensures { LiftsSum half sum.entry (λ ws. Writes page.old ws page.new) }
{
    let sizes = half.sizes;
    // kept: two cases of an enum, whose words lie in two ways: in a row, and once in each row
    match half.side {
        Side::S => {
            page.put_set(pair_set(sizes.s, sizes.t, sum.marks, ALL));
            page.repeat_each(sum.times, sizes.t);
        }
        Side::T => {
            page.put_set(pair_set(sizes.s, sizes.t, ALL, sum.marks));
            page.repeat_all(sum.times, sizes.s);
        }
    }
}
