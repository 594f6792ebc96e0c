// What a line has after its name, if it has one.
use crate::calls::Call;
use crate::values::{Evaluator, Values};
use cases_scan::{Unreadable, split_word};
use std::rt::Files;

// A call, its values, and the comment behind them.
#[derive(Drop)]
pub struct Case<'a> {
    pub call: Call,
    pub values: Values<'a>,
    pub comment: &'a [u8],
}

impl<'a> Case<'a> {
    // A call with as many values as it takes, and with a comment.
    fn new(call: Call, values: Values<'a>) -> Result<Case<'a>, Unreadable> {
        if values.parts.len() != call.value_count() {
            return Err(Unreadable);
        }
        let comment = values.comment.ok_or(Unreadable)?;
        Ok(Case {
            call,
            values,
            comment,
        })
    }
}

#[derive(Drop)]
pub enum Content<'a> {
    Value,
    Case(Case<'a>),
}

impl<R: Files> Evaluator<'_, '_, '_, R> {
    // The value or case that is written, with its words on top of the store.
    pub fn content<'w>(&mut self, written: &'w [u8]) -> Result<Content<'w>, Unreadable> {
        let (word, rest) = split_word(written);
        if let Ok(call) = Call::try_from(word) {
            return Ok(Content::Case(Case::new(call, self.values(rest)?)?));
        }
        if self.values(written)?.parts.len() != 1 {
            return Err(Unreadable);
        }
        Ok(Content::Value)
    }
}
