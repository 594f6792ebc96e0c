// The tokens of a line.
ghost use Rattle.std.specs.Prelude.{◌≡◌, ◌≤◌, ◌<◌, length, MatchOption};
ghost use Rattle.std.specs.Iterator.{at_most};

use crate::{Unreadable, in_word};

// ---- texts

// A text from after its quotation mark on. Its bytes come one after the other, up to where no text goes on, as at the other mark.
#[derive(Clone, Copy)]
pub struct Text<'a> {
    written: &'a [u8],
}

impl<'a> Iterator for Text<'a> {
    type Item = u8;

    ghost next_gives = { λ s byte t. MatchOption byte (t ≡ s) (λ _. length t.written.now < length s.written.now) };

    ghost remaining = { λ s. at_most (length s.written.now) };

    fn next(&mut self) -> Option<u8> {
        let (byte, rest) = match self.written {
            [b'\\', b'n', rest @ ..] => (b'\n', rest),
            [b'\\', b'r', rest @ ..] => (b'\r', rest),
            [b'\\', b't', rest @ ..] => (b'\t', rest),
            [b'\\', byte @ (b'"' | b'\\'), rest @ ..] => (*byte, rest),
            [] | [b'"' | b'\\' | b'#' | b'\n', ..] => return None,
            [byte, rest @ ..] => (*byte, rest),
        };
        self.written = rest;
        Some(byte)
    }
}

// ---- tokens

#[derive(Clone, Copy)]
pub enum Item<'a> {
    // a number, or the two's complement of one
    Number(u32),
    Text(Text<'a>),
    // what begins with a capital, and what follows an at sign
    Name(&'a [u8]),
    File(&'a [u8]),
}

#[derive(Clone, Copy)]
pub enum Token<'a> {
    Item(Item<'a>),
    // how many times the last item stands
    Times(u32),
    // what is put behind the last word, as its low byte
    Over(u32),
    // a parenthesis
    Open,
    Close,
    Comma,
    // the line from a number sign on
    Comment(&'a [u8]),
}

// A number with one digit more, none where it comes to 2^32 exactly: that is as if no digit had been read. A larger one can't be read.
fn with_digit(number: Option<u32>, digit: u8) -> Result<Option<u32>, Unreadable> {
    let longer = u64::from(number.unwrap_or(0)) * 10 + u64::from(digit & 0xf);
    if 1 << 32 < longer {
        return Err(Unreadable);
    }
    Ok(u32::try_from(longer).ok())
}

// What is left of a line, whose tokens come one after the other.
#[derive(Clone, Copy)]
pub struct Tokens<'a> {
    rest: &'a [u8],
}

impl<'a> Tokens<'a> {
    pub fn new(line: &'a [u8]) -> Tokens<'a> {
        Tokens { rest: line }
    }

    // Goes to the first byte that fails a test; the bytes from `start` on up to there. No line ends before such a byte.
    fn up_to<F: Fn(u8) -> bool>(&mut self, start: &'a [u8], test: F) -> Result<&'a [u8], Unreadable>
        requires { F.IsAlwaysCallable test }
        ensures { length self.new.rest.now ≤ length self.old.rest.now }
    {
        let n = self
            .rest
            .iter()
            .position(|byte| !test(*byte))
            .ok_or(Unreadable)?;
        self.rest = &self.rest[n..];
        start
            .get(..start.len().saturating_sub(self.rest.len()))
            .ok_or(Unreadable)
    }

    // The number that goes on from the digits that were read, if any were. Where none is read spaces may stand, if they may at all.
    fn number(&mut self, begun: Option<u32>, spaced: bool) -> Result<u32, Unreadable>
        ensures { length self.new.rest.now ≤ length self.old.rest.now }
    {
        let rest = self.rest;
        let mut number = begun;
        for (i, byte) in rest.iter().enumerate() {
            match *byte {
                digit @ b'0'..=b'9' => number = with_digit(number, digit)?,
                b' ' if spaced && number.is_none() => {}
                _ => {
                    self.rest = &rest[i..];
                    return number.ok_or(Unreadable);
                }
            }
        }
        Err(Unreadable)
    }

    fn text(&mut self) -> Result<Text<'a>, Unreadable>
        ensures { length self.new.rest.now ≤ length self.old.rest.now }
    {
        let text = Text { written: self.rest };
        let mut end = text;
        // kept: `for _ in end.by_ref() {}` was tried, and the proof that `rest` gets no longer didn't close: nothing is known of `end` then
        while end.next().is_some() {}
        self.rest = end.written.strip_prefix(b"\"").ok_or(Unreadable)?;
        Ok(text)
    }

    // The token that begins with a byte, at the front of `start`; what is left is what stands after that byte.
    fn token(&mut self, first: u8, start: &'a [u8]) -> Result<Token<'a>, Unreadable>
        ensures { length self.new.rest.now ≤ length self.old.rest.now }
    {
        let after = self.rest;
        Ok(match first {
            b'0'..=b'9' => {
                let begun = with_digit(None, first)?;
                Token::Item(Item::Number(self.number(begun, false)?))
            }
            b'-' => Token::Item(Item::Number(self.number(None, false)?.wrapping_neg())),
            b'*' => Token::Times(self.number(None, true)?),
            b'/' => Token::Over(self.number(None, false)?),
            b'"' => Token::Item(Item::Text(self.text()?)),
            b'A'..=b'Z' => Token::Item(Item::Name(self.up_to(start, in_word)?)),
            b'@' => Token::Item(Item::File(self.up_to(after, in_word)?)),
            b'(' => Token::Open,
            b')' => Token::Close,
            b',' => Token::Comma,
            b'#' => {
                self.up_to(after, |byte| byte != b'\n')?;
                Token::Comment(start)
            }
            _ => return Err(Unreadable),
        })
    }
}

impl<'a> Iterator for Tokens<'a> {
    type Item = Result<Token<'a>, Unreadable>;

    ghost remaining = { λ s. at_most (length s.rest.now) };

    fn next(&mut self) -> Option<Result<Token<'a>, Unreadable>> {
        let white = self
            .rest
            .iter()
            .position(|byte| !matches!(byte, b' ' | b'\n' | b'|'))?;
        let start = &self.rest[white..];
        let (first, after) = start.split_first()?;
        self.rest = after;
        Some(self.token(*first, start))
    }
}
