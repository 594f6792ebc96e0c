// Answers as numbers: for C, and for programs that print them.
#![tactic(auto)]

ghost use Rattle.std.specs.Prelude.{◌≡◌};
ghost use Rattle.model.specs.Answers.{said, said_judgement, said_refusal, said_verdict};
ghost use Rattle.answers.specs.Numbers.{kind_number, numbers_of};

use model::{Refusal, Verdict};

// the place of refusal 1
const TEXT_END: usize = 65535;

// The kinds of answers, with their numbers in C.
#[derive(Clone, Copy, PartialEq, Eq)]
pub enum Kind {
    Count = 0,
    Accepted = 1,
    Refused = 2,
    Stuck = 3,
    Error = 4,
}

impl From<Kind> for u32 {
    ghost from_gives = { λ kind number. number ≡ kind_number kind };

    // The number of a kind.
    fn from(kind: Kind) -> u32 {
        kind as u32
    }
}

// The kind of an answer and its two values: of a count the number and 0, of a verdict the state or node and the looks, of an error
// the refusal's number and place.
#[derive(Clone, Copy)]
pub struct Numbers {
    pub kind: Kind,
    pub first: u64,
    pub second: u64,
}

impl From<Refusal> for Numbers {
    ghost from_gives = { λ refusal numbers. numbers ≡ numbers_of (said_refusal refusal) };

    // A refusal by its number and place.
    fn from(refusal: Refusal) -> Numbers {
        let (number, place) = match refusal {
            Refusal::LongText => (1, TEXT_END),
            Refusal::ForbiddenByte(i) => (2, i),
            Refusal::Syntax(i) => (3, i),
            Refusal::UnknownName(i) => (4, i),
            Refusal::OtherName(i) => (5, i),
            Refusal::Depth(i) => (6, i),
            Refusal::ManyNodes(i) => (7, i),
            Refusal::NameList(i) => (8, i),
            Refusal::Sheet(i) => (9, i),
            Refusal::Tree(i) => (10, i),
            Refusal::TextWords(i) => (11, i),
            Refusal::TagCounts(g) => (20, g),
            Refusal::JointLimit(k) => (21, k),
            Refusal::ShortBuffer(n) => (22, n),
            Refusal::TwoStates(i) => (23, i),
            Refusal::LongForm(n) => (24, n),
        };
        Numbers {
            kind: Kind::Error,
            first: number,
            second: place as u64,
        }
    }
}

impl From<Verdict> for Numbers {
    ghost from_gives = { λ verdict numbers. numbers ≡ numbers_of (said_verdict verdict) };

    // The state or the node, and the looks.
    fn from(verdict: Verdict) -> Numbers {
        let (kind, first, second) = match verdict {
            Verdict::Accepted { state, looks } => (
                Kind::Accepted,
                u64::from(state),
                u64::from(looks),
            ),
            Verdict::Refused { state, looks } => (
                Kind::Refused,
                u64::from(state),
                u64::from(looks),
            ),
            Verdict::Stuck { node, looks } => (Kind::Stuck, node as u64, u64::from(looks)),
        };
        Numbers {
            kind,
            first,
            second,
        }
    }
}

impl From<Result<usize, Refusal>> for Numbers {
    ghost from_gives = { λ answer numbers. numbers ≡ numbers_of (said answer) };

    // A count, or a refusal.
    fn from(answer: Result<usize, Refusal>) -> Numbers {
        match answer {
            Ok(n) => Numbers {
                kind: Kind::Count,
                first: n as u64,
                second: 0,
            },
            Err(refusal) => Numbers::from(refusal),
        }
    }
}

// kept: one impl of this and the one above would need a `From` a bare number, which is no answer by itself
impl From<Result<Verdict, Refusal>> for Numbers {
    ghost from_gives = { λ judgement numbers. numbers ≡ numbers_of (said_judgement judgement) };

    // A verdict, or a refusal.
    fn from(judgement: Result<Verdict, Refusal>) -> Numbers {
        match judgement {
            Ok(verdict) => Numbers::from(verdict),
            Err(refusal) => Numbers::from(refusal),
        }
    }
}
