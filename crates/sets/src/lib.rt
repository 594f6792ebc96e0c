// Sets of numbers below 64: all below a number, the complement of a set, and sets of pairs. Every function is total.
#![tactic(auto)]

ghost use Rattle.std.specs.Prelude.{◌≡◌, min};
ghost use Rattle.model.specs.Sheet.{mask, bit};
ghost use Rattle.sets.specs.Sets.{all_below, complement, pair_set};

// numbers from here on are in no set
const LIMIT: u32 = 64;

// every number below 64
pub const ALL: u64 = u64::MAX;

// Every number below `k` that is below 64.
pub fn all_below(k: u32) -> u64
    ensures { result ≡ all_below k }
{
    1u64.checked_shl(k).map_or(ALL, |next| next - 1)
}

// The members of a set that are below `k`.
fn below(set: u64, k: u32) -> u64
    ensures { result ≡ mask (min k 64) (bit set) }
{
    all_below(k) & set
}

// The numbers below `k` that are below 64 and not in a set.
pub fn complement(set: u64, k: u32) -> u64
    ensures { result ≡ complement set k }
{
    all_below(k) - below(set, k)
}

// The pairs of a member of `s` and a member of `t`, of the pairs of a number below `m` and a number below `n`, row by row; no
// pair, where there are over 64.
pub fn pair_set(m: u32, n: u32, s: u64, t: u64) -> u64
    ensures { result ≡ pair_set m n s t }
{
    if n == 0 || LIMIT < m.saturating_mul(n) {
        return 0;
    }
    let row = below(t, n);
    let mut set = 0;
    // kept: tried; with `bits::members(below(s, m))` the proof of the invariant Rows, by the number i, didn't close
    for i in 0..m {
        if bits::has(s, i) {
            set += row << (i * n);
        }
    }
    set
}
