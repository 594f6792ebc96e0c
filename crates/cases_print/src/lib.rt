// What is printed: lines, answers, and lent buffers.
#![tactic(auto)]

use model::{Refusal, Verdict};

const STDOUT: i32 = 1;

// A longer buffer is printed by its length and its sum.
const MOST_SHOWN: usize = 48;

// What a sum is modulo.
const MODULUS: u64 = 4_294_967_291;

fn bytes(run: &[u8]) {
    io::write_all(STDOUT, run);
}

// ---- lines

pub fn line(line: &[u8]) {
    bytes(line);
}

pub fn unreadable_line(unread: &[u8]) {
    bytes(b"cannot be read: ");
    line(unread);
}

// What stands before a case's answer: the line up to its comment.
pub fn before_answer(line: &[u8], comment: &[u8]) {
    bytes(line.strip_suffix(comment).unwrap_or_default());
    bytes(b"-> ");
}

// What stands after a case's answer.
pub fn after_answer(comment: &[u8]) {
    bytes(b"   ");
    bytes(comment);
}

// ---- answers

// A line without the byte that ends it.
fn said(line: &[u8]) {
    bytes(line.strip_suffix(b"\n").unwrap_or(line));
}

// Gives how much of the lent buffer the answer counts, too.
pub fn answer(answer: Result<usize, Refusal>) -> usize {
    let mut out = [0; line::MOST_BYTES];
    let n = line::of_answer(answer, &mut out);
    said(&out[..n]);
    answer.unwrap_or(0)
}

pub fn judgement(judgement: Result<Verdict, Refusal>) {
    let mut out = [0; line::MOST_BYTES];
    let n = line::of_judgement(judgement, &mut out);
    said(&out[..n]);
}

// ---- buffers: of words, or of bytes

// One space and a number.
fn field(n: u64) {
    bytes(b" ");
    io::print_decimal(STDOUT, n);
}

// From 0 on, for each element: the sum times 257, plus the element, modulo 4,294,967,291.
fn sum<T: Copy>(buffer: &[T]) -> u64
where
    u32: From<T>,
{
    buffer.iter().fold(0, |sum, x| {
        (sum % MODULUS * 257 + u64::from(u32::from(*x))) % MODULUS
    })
}

// The length and the sum of a buffer.
fn summary<T: Copy>(buffer: &[T])
where
    u32: From<T>,
{
    bytes(b": length");
    field(buffer.len() as u64);
    bytes(b", sum");
    field(sum(buffer));
}

pub fn words(buffer: &[u32]) {
    if MOST_SHOWN < buffer.len() {
        return summary(buffer);
    }
    bytes(b":");
    for word in buffer {
        field(u64::from(*word));
    }
}

pub fn text(buffer: &[u8]) {
    if MOST_SHOWN < buffer.len() {
        return summary(buffer);
    }
    bytes(b": \"");
    bytes(buffer);
    bytes(b"\"");
}
