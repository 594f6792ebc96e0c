// The two sheets of a join, and their pairs of states as numbers.
#![tactic(auto)]

ghost use Rattle.std.specs.Prelude.{◌≡◌, ◌≤◌};
ghost use Rattle.model.specs.Compose.{pair, beside};
ghost use Rattle.join_pairs.specs.Pairs.{FewPairs};

#[derive(Clone, Copy)]
pub enum Side {
    S,
    T,
}

// What each of the two sheets has of a kind.
#[derive(Clone, Copy)]
pub struct Both<T> {
    pub s: T,
    pub t: T,
}

// The number of a pair, where T has `p` states or positions. Each half may be any number of one byte.
pub fn pair(p: u32, s: u32, t: u32) -> u32
    requires { (p ≤ 64) × (s ≤ 255) × (t ≤ 255) }
    ensures { (result ≡ pair p s t) × (result ≤ 16575) }
{
    s * p + t
}

// How many states each sheet has: at most 64 pairs.
#[derive(Clone, Copy)]
pub struct Sizes {
    pub s: u32,
    pub t: u32,
    pub ghost few: { FewPairs (record { of_S = s; of_T = t }) },
}

impl Sizes {
    // One of the two sheets.
    pub fn half(self, side: Side) -> Half
        ensures { result ≡ record { side = side; sizes = self } }
    {
        Half { side, sizes: self }
    }

    // The pair of a state of S and a state of T.
    pub fn pair(self, s: u32, t: u32) -> u32
        requires { (s ≤ 255) × (t ≤ 255) }
        ensures { (result ≡ pair self.t s t) × (result ≤ 16575) }
    {
        pair(self.t, s, t)
    }
}

// One of the two sheets, whose state is one half of a pair, and how many states both have.
#[derive(Clone, Copy)]
pub struct Half {
    pub side: Side,
    pub sizes: Sizes,
}

impl Half {
    ghost use Rattle.join_pairs.specs.Sides.{side_of, other_states};

    // How many states the other sheet has.
    pub fn other(self) -> u32
        ensures { result ≡ other_states self }
    {
        // kept: two cases of an enum, a value of each; no step is run
        match self.side {
            Side::S => self.sizes.t,
            Side::T => self.sizes.s,
        }
    }

    // The pair of a state of this sheet and a state of the other.
    pub fn beside(self, q: u32, other: u32) -> u32
        requires { (q ≤ 255) × (other ≤ 255) }
        ensures { (result ≡ beside (side_of self.side) self.sizes.t q other) × (result ≤ 16575) }
    {
        // kept: two cases of an enum, a pair of each; no step is run
        match self.side {
            Side::S => self.sizes.pair(q, other),
            Side::T => self.sizes.pair(other, q),
        }
    }
}
