// The limits of refusal 21, and the first that a rule exceeds.
#![tactic(auto)]

ghost use Rattle.std.specs.Prelude.{◌≡◌, leb};
ghost use Rattle.model.specs.declared.Refusal.TheVariants.{JointLimit};
ghost use Rattle.limits.specs.Limits.{place, first_of, earlier};

use layout::{MOST_ARCS, MOST_POSITIONS, MOST_STEPS};
use model::Refusal;

// The limits of refusal 21 in the order in which they are told, numbered by document 01.
#[derive(Clone, Copy, PartialEq, Eq, PartialOrd, Ord)]
pub enum Limit {
    States = 1,
    Rules = 2,
    Positions = 3,
    Arcs = 4,
    Steps = 5,
    Words = 6,
}

impl From<Limit> for Refusal {
    ghost from_gives = { λ limit refusal. refusal ≡ JointLimit (place limit) };

    // The refusal of a joint sheet over a limit.
    fn from(limit: Limit) -> Refusal {
        Refusal::JointLimit(limit as usize)
    }
}

// The first limit that a rule exceeds, if there is one.
pub fn first_over(positions: u32, arcs: u32, steps: u32) -> Option<Limit>
    ensures { result ≡ first_of (leb positions 64) (leb arcs 1024) (leb steps 32) }
{
    if MOST_POSITIONS < positions {
        Some(Limit::Positions)
    } else if MOST_ARCS < arcs {
        Some(Limit::Arcs)
    } else if MOST_STEPS < steps {
        Some(Limit::Steps)
    } else {
        None
    }
}

// The earlier of two limits, as far as there are any.
pub fn earlier(k: Option<Limit>, l: Option<Limit>) -> Option<Limit>
    ensures { result ≡ earlier k l }
{
    match (k, l) {
        (Some(a), Some(b)) => Some(a.min(b)),
        _ => k.or(l),
    }
}
