// Answers as lines: the bytes that formcheck prints, put into a lent array.
#![tactic(auto)]

ghost use Rattle.std.specs.Prelude.{◌≡◌, ◌++◌, ◌+◌, ◌≤◌, List, [], ℕ, length, take, drop};
ghost use Rattle.io.specs.Counts.{IsPrefixLen};
ghost use Rattle.model.specs.Answers.{said, said_judgement};
ghost use Rattle.model.specs.Line.{field, line_of};
ghost use Rattle.line.specs.Words.{word_of, numbers_line};

use answers::{Kind, Numbers};
use model::{Refusal, Verdict};
use std::marker::Model;

// the longest word, and the most digits of a 64-bit number
const WORD_BYTES: usize = 8;

const DIGITS: usize = 20;

// The longest line: a word, twice a space and a number, and the byte that ends it.
pub const MOST_BYTES: usize = WORD_BYTES + 2 * (1 + DIGITS) + 1;

// The word for a kind of answers.
#[tactic(auto, unfolding(crate::specs::Words::word_of, model::specs::Line::bytes))]
fn word(kind: Kind) -> &'static [u8]
    ensures spelt { result.now ≡ word_of kind }
    ensures few { length result.now ≤ 8 }
{
    // kept: a word for each kind; no step is run
    match kind {
        Kind::Count => b"count",
        Kind::Accepted => b"accepted",
        Kind::Refused => b"refused",
        Kind::Stuck => b"stuck",
        Kind::Error => b"error",
    }
}

// The bytes of a line so far.
// kept: no plainer by the toolchain's ArrayVec: as many methods, over a type whose model a reader would look up in one more crate
#[derive(Drop)]
struct Line {
    bytes: [u8; MOST_BYTES],
    len: usize,
}

impl Model for Line {
    ghost Value = { List ℕ };

    ghost view = { λ line. take line.len line.bytes };

    ghost invariant = { λ line. line.len ≤ 51 };
}

impl Line {
    fn new() -> Line
        ensures { result ≡ [] }
    {
        Line {
            bytes: [0; MOST_BYTES],
            len: 0,
        }
    }

    fn push(&mut self, run: &[u8])
        requires { length self.old + length run.now ≤ 51 }
        ensures { self.new ≡ self.old ++ run.now }
    {
        let end = self.len + run.len();
        self.bytes[self.len..end].copy_from_slice(run);
        self.len = end;
    }

    // One space and a number in decimal.
    fn push_field(&mut self, n: u64)
        requires { length self.old + 21 ≤ 51 }
        ensures field { self.new ≡ self.old ++ field n }
        ensures few { length self.new ≤ length self.old + 21 }
    {
        let mut digits = [0u8; DIGITS];
        let count = io::decimal(n, &mut digits);
        self.push(b" ");
        self.push(&digits[..count]);
    }

    // The line goes to the front of `out`; its number of bytes.
    fn copy_to(&self, out: &mut [u8; MOST_BYTES]) -> usize
        ensures bytes { result ≡ length self.now }
        ensures out { out.new ≡ self.now ++ drop result out.old }
        ensures within { IsPrefixLen result out.new }
    {
        let line = &self.bytes[..self.len];
        out[..line.len()].copy_from_slice(line);
        line.len()
    }
}

impl From<Numbers> for Line {
    ghost from_gives = { λ numbers line. line ≡ numbers_line numbers };

    // A word and one or two numbers, and the byte that ends the line.
    fn from(numbers: Numbers) -> Line {
        let mut line = Line::new();
        line.push(word(numbers.kind));
        line.push_field(numbers.first);
        if numbers.kind != Kind::Count {
            line.push_field(numbers.second);
        }
        line.push(b"\n");
        line
    }
}

// The line of a count or a refusal goes to the front of `out`; its number of bytes.
pub fn of_answer(answer: Result<usize, Refusal>, out: &mut [u8; MOST_BYTES]) -> usize
    ensures bytes { result ≡ length (line_of (said answer)) }
    ensures out { out.new ≡ line_of (said answer) ++ drop result out.old }
    ensures within { IsPrefixLen result out.new }
{
    Line::from(Numbers::from(answer)).copy_to(out)
}

// The line of a verdict or a refusal goes to the front of `out`; its number of bytes.
// kept: a line of code each; a generic function could promise what `From` gives alone, and not the line of its own answer
pub fn of_judgement(judgement: Result<Verdict, Refusal>, out: &mut [u8; MOST_BYTES]) -> usize
    ensures bytes { result ≡ length (line_of (said_judgement judgement)) }
    ensures out { out.new ≡ line_of (said_judgement judgement) ++ drop result out.old }
    ensures within { IsPrefixLen result out.new }
{
    Line::from(Numbers::from(judgement)).copy_to(out)
}
