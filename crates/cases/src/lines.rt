// Lines: comments, named values and cases.
use crate::run::Invocation;
use cases_scan::{Unreadable, in_one_line, split_name};
use cases_store::buffers::MOST;
use cases_store::input_store::{InputStore, STORE_WORDS};
use cases_values::contents::{Case, Content};
use cases_values::values::Evaluator;
use std::rt::Files;

// A line with its line feed, and where it begins in the input.
#[derive(Clone, Copy)]
struct Line<'a> {
    text: &'a [u8],
    start: usize,
}

// Makes the call of a line, between what is printed of it: what is before its comment, and the comment. What the answer counts of the
// lent buffer is put on the store, in place of the case's values.
fn make_call(store: &mut InputStore, line: &[u8], case: &Case) -> Result<(), Unreadable> {
    let mut out = [7; MOST];
    let invocation = Invocation::new(case, store)?;
    cases_print::before_answer(line, case.comment);
    let kept = invocation.run(&mut out);
    cases_print::after_answer(case.comment);
    store.begin_line()?;
    store.extend(kept.iter().copied())
}

// Prints a line that is no comment, with the answer where it is a case. What it names is put on the store.
fn named_or_case<R: Files>(
    evaluator: &mut Evaluator<'_, '_, '_, R>,
    line: Line,
) -> Result<(), Unreadable> {
    evaluator.store.begin_line()?;
    let named = split_name(line.text);
    let written = named.map_or(line.text, |(_, written)| written);
    match evaluator.content(written)? {
        Content::Case(case) => make_call(&mut evaluator.store, line.text, &case)?,
        Content::Value if named.is_some() => cases_print::line(line.text),
        Content::Value => return Err(Unreadable),
    }
    if named.is_some() {
        evaluator.store.define(line.start);
    }
    Ok(())
}

// Prints a line, with the answer where it is a case.
fn any_line<R: Files>(evaluator: &mut Evaluator<'_, '_, '_, R>, line: Line) {
    if let [b'\n' | b'#', ..] = line.text {
        cases_print::line(line.text);
        return;
    }
    if named_or_case(evaluator, line).is_err() {
        cases_print::unreadable_line(line.text);
    }
}

pub(crate) fn all<R: Files>(rt: &R, text: &[u8]) {
    let mut words = [0; STORE_WORDS];
    let mut evaluator = Evaluator {
        rt,
        store: InputStore::new(text, &mut words),
    };
    let mut start: usize = 0;
    for text in text.chunk_by(in_one_line) {
        any_line(&mut evaluator, Line { text, start });
        start = start.saturating_add(text.len());
    }
}
