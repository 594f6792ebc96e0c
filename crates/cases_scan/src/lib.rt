// The input, its lines, and the tokens of a line.
#![tactic(auto)]

pub mod tokens;

// The error of a line that isn't written as it should be, or whose words there is no room for.
#[derive(Clone, Copy)]
pub struct Unreadable;

// ---- words

// Whether a byte is one of a word's: a letter, a digit, a hyphen, a dot, an underscore.
pub fn in_word(byte: u8) -> bool {
    byte.is_ascii_alphanumeric() || matches!(byte, b'-' | b'.' | b'_')
}

// The word at the front of a text, and what follows it.
pub fn split_word(text: &[u8]) -> (&[u8], &[u8]) {
    let n = text
        .iter()
        .position(|byte| !in_word(*byte))
        .unwrap_or(text.len());
    text.split_at(n)
}

// ---- lines

// Whether two bytes that are neighbours are in one line. A line ends at a line feed that no space follows.
pub fn in_one_line(byte: &u8, next: &u8) -> bool {
    *byte != b'\n' || *next == b' '
}

// The name that a line begins with, before a space, `=` and a space; and what it names.
pub fn split_name(line: &[u8]) -> Option<(&[u8], &[u8])> {
    let (name, rest) = split_word(line);
    let named = rest.strip_prefix(b" = ")?;
    name.first()?.is_ascii_uppercase().then_some((name, named))
}
