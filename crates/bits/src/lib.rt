// Sets of numbers below 64 as the bits of a u64, arc words, and remainders.
#![tactic(auto)]

ghost use Rattle.std.specs.Prelude.{◌≡◌, cond, ◌&&◌, ◌||◌, ◌+◌, ◌*◌, eqb, length, None, Some};
ghost use Rattle.model.specs.Sheet.{W, bit, mask, members, arc_of};
ghost use Rattle.model.specs.Words.{meets, remainder_of};

// the eight bits of a field of an arc word
const FIELD: u32 = 0xFF;

// Whether q is a member.
pub fn has(set: u64, q: u32) -> bool
    ensures { result ≡ bit set q }
{
    set.unbounded_shr(q) & 1 == 1
}

// The set with q, where the flag holds and q is below 64.
pub fn with_if(flag: bool, set: u64, q: u32) -> u64
    ensures { result ≡ mask 64 (λ j. bit set j || (flag && eqb j q)) }
{
    if flag {
        set | 1u64.unbounded_shl(q)
    } else {
        set
    }
}

// The set whose low and high 32 bits stand in two words.
pub fn of_words(low: u32, high: u32) -> u64
    ensures { result ≡ low + high * W }
{
    (u64::from(high) << 32) | u64::from(low)
}

// Whether two sets have a member in common.
pub fn meet(a: u64, b: u64) -> bool
    ensures { result ≡ meets (members 64 a) (members 64 b) }
{
    a & b != 0
}

// How many members there are.
pub fn size(set: u64) -> u32
    ensures { result ≡ length (members 64 set) }
{
    set.count_ones()
}

// The members of a set that are left, lowest first: they are those of `set`.
#[derive(Drop)]
pub struct MembersLeft {
    pub set: u64,
}

impl Iterator for MembersLeft {
    ghost use Rattle.std.specs.Iterator.{YieldsFirst, item_count};
    ghost use Rattle.model.specs.Sheet.{members};

    type Item = u32;

    ghost next_gives = { YieldsFirst (λ m. members 64 m.set) };

    ghost remaining = { item_count (λ m. members 64 m.set) };

    // The lowest member, which goes from the set.
    fn next(&mut self) -> Option<u32> {
        let set = self.set;
        if set == 0 {
            return None;
        }
        self.set = set & (set - 1);
        Some(set.trailing_zeros())
    }
}

// The members of a set, lowest first.
pub fn members(set: u64) -> MembersLeft
    ensures { result.set ≡ set }
{
    MembersLeft { set }
}

// The position that an arc leaves, the state it reads, the position it enters.
#[derive(Clone, Copy)]
pub struct Arc {
    pub leaves: u32,
    pub reads: u32,
    pub enters: u32,
}

impl From<u32> for Arc {
    ghost from_gives = { λ word arc. (arc.leaves ≡ (arc_of word).leaves) × (arc.reads ≡ (arc_of word).reads)
        × (arc.enters ≡ (arc_of word).enters) };

    // An arc word taken apart.
    fn from(word: u32) -> Arc {
        Arc {
            leaves: (word >> 16) & FIELD,
            reads: (word >> 8) & FIELD,
            enters: word & FIELD,
        }
    }
}

// What a number leaves on division by m, never negative; none where m is 0.
pub fn checked_remainder(z: i32, m: u32) -> Option<u32>
    ensures { result ≡ cond (eqb m 0) None (Some (remainder_of z m)) }
{
    if m == 0 {
        return None;
    }
    Some(i64::from(z).rem_euclid(i64::from(m)) as u32)
}

// What a number leaves on division by m, never negative; 0 where m is 0.
pub fn remainder(z: i32, m: u32) -> u32
    ensures { result ≡ cond (eqb m 0) 0 (remainder_of z m) }
{
    checked_remainder(z, m).unwrap_or(0)
}
