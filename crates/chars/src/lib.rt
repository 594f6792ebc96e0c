// The class of each byte, in a table; and tests of a byte by comparisons.
#![tactic(auto)]

ghost use Rattle.std.specs.Prelude.{◌≡◌};
ghost use Rattle.model.specs.Bytes.{white, is, class_of, digit_byte, kind_of_text, text_kind};
ghost use Rattle.model.specs.Written.{text_byte};
ghost use Rattle.chars.specs.Classes.{meaning, name_class, text_class};

use Class::*;
use model::TextKind;

// The class of a byte.
#[derive(Clone, Copy, PartialEq, Eq)]
pub enum Class {
    White,
    Letter,
    Digit,
    Hyphen,
    Less,
    Greater,
    Slash,
    Other,
    Forbidden,
}

impl From<u8> for Class {
    ghost from_gives = { λ byte class. meaning class ≡ class_of byte };

    // The class of a byte, by the table.
    fn from(byte: u8) -> Class {
        CLASSES[byte as usize]
    }
}

impl Class {
    // Whether a name goes on with a byte of the class.
    pub fn in_name(self) -> bool
        ensures { result ≡ name_class (meaning self) }
    {
        (self == Letter) | (self == Digit) | (self == Hyphen)
    }

    // Whether a text goes on with it.
    pub fn in_text(self) -> bool
        ensures { result ≡ text_class (meaning self) }
    {
        (self != Less) & (self != Greater) & (self != Forbidden)
    }
}

// ---- by comparisons and not by the table, so that a loop can test many bytes together

pub fn is_white(byte: u8) -> bool
    ensures { result ≡ is (class_of byte) white }
{
    (byte == b' ') | (byte == b'\t') | (byte == b'\n') | (byte == b'\r')
}

pub fn is_digit(byte: u8) -> bool
    ensures { result ≡ digit_byte byte }
{
    (b'0' <= byte) & (byte <= b'9')
}

// The kind of a text: an integer where every byte is a digit.
pub fn kind_of(text: &[u8]) -> TextKind
    ensures { text_kind result ≡ kind_of_text text.now }
{
    if text.iter().all(|&byte| is_digit(byte)) {
        TextKind::Integer
    } else {
        TextKind::Other
    }
}

// Whether a text may hold the byte: white, or from ! to ~ but none of & < >.
pub fn in_text(byte: u8) -> bool
    ensures { result ≡ text_byte byte }
{
    ((byte == b'\t') | (byte == b'\n') | (byte == b'\r') | (b' ' <= byte))
        & (byte <= b'~')
        & (byte != b'&')
        & (byte != b'<')
        & (byte != b'>')
}

// ---- the table

// The class of each byte value.
static CLASSES: [Class; 256] = [
    // 0 to 8
    Forbidden, Forbidden, Forbidden, Forbidden, Forbidden, Forbidden, Forbidden, Forbidden,
    Forbidden,
    // tab, line feed
    White, White,
    // 11, 12
    Forbidden, Forbidden, White, // carriage return
    // 14 to 31
    Forbidden, Forbidden, Forbidden, Forbidden, Forbidden, Forbidden, Forbidden, Forbidden,
    Forbidden, Forbidden, Forbidden, Forbidden, Forbidden, Forbidden, Forbidden, Forbidden,
    Forbidden, Forbidden, White, // space
    // ! to %
    Other, Other, Other, Other, Other, Forbidden, // &
    // ' to ,
    Other, Other, Other, Other, Other, Other, Hyphen, // -
    Other, // .
    Slash, // /
    // 0 to 9
    Digit, Digit, Digit, Digit, Digit, Digit, Digit, Digit, Digit, Digit,
    // : ;
    Other, Other, Less, // <
    Other, // =
    Greater, // >
    // ? @
    Other, Other,
    // A to Z
    Letter, Letter, Letter, Letter, Letter, Letter, Letter, Letter, Letter, Letter, Letter, Letter,
    Letter, Letter, Letter, Letter, Letter, Letter, Letter, Letter, Letter, Letter, Letter, Letter,
    Letter, Letter,
    // [ to `
    Other, Other, Other, Other, Other, Other,
    // a to z
    Letter, Letter, Letter, Letter, Letter, Letter, Letter, Letter, Letter, Letter, Letter, Letter,
    Letter, Letter, Letter, Letter, Letter, Letter, Letter, Letter, Letter, Letter, Letter, Letter,
    Letter, Letter,
    // { to ~
    Other, Other, Other, Other,
    // 127 to 255
    Forbidden, Forbidden, Forbidden, Forbidden, Forbidden, Forbidden, Forbidden, Forbidden,
    Forbidden, Forbidden, Forbidden, Forbidden, Forbidden, Forbidden, Forbidden, Forbidden,
    Forbidden, Forbidden, Forbidden, Forbidden, Forbidden, Forbidden, Forbidden, Forbidden,
    Forbidden, Forbidden, Forbidden, Forbidden, Forbidden, Forbidden, Forbidden, Forbidden,
    Forbidden, Forbidden, Forbidden, Forbidden, Forbidden, Forbidden, Forbidden, Forbidden,
    Forbidden, Forbidden, Forbidden, Forbidden, Forbidden, Forbidden, Forbidden, Forbidden,
    Forbidden, Forbidden, Forbidden, Forbidden, Forbidden, Forbidden, Forbidden, Forbidden,
    Forbidden, Forbidden, Forbidden, Forbidden, Forbidden, Forbidden, Forbidden, Forbidden,
    Forbidden, Forbidden, Forbidden, Forbidden, Forbidden, Forbidden, Forbidden, Forbidden,
    Forbidden, Forbidden, Forbidden, Forbidden, Forbidden, Forbidden, Forbidden, Forbidden,
    Forbidden, Forbidden, Forbidden, Forbidden, Forbidden, Forbidden, Forbidden, Forbidden,
    Forbidden, Forbidden, Forbidden, Forbidden, Forbidden, Forbidden, Forbidden, Forbidden,
    Forbidden, Forbidden, Forbidden, Forbidden, Forbidden, Forbidden, Forbidden, Forbidden,
    Forbidden, Forbidden, Forbidden, Forbidden, Forbidden, Forbidden, Forbidden, Forbidden,
    Forbidden, Forbidden, Forbidden, Forbidden, Forbidden, Forbidden, Forbidden, Forbidden,
    Forbidden, Forbidden, Forbidden, Forbidden, Forbidden, Forbidden, Forbidden, Forbidden,
    Forbidden,
];
