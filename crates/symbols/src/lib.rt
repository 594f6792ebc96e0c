// What a node's symbol says: its first word, a tag's number or one of the two words of texts.
#![tactic(auto)]

ghost use Rattle.std.specs.Prelude.{◌≡◌, ◌≤◌};
ghost use Rattle.model.specs.Bytes.{text_kind};
ghost use Rattle.model.specs.Tree.{of_text, symbol_of};
ghost use Rattle.symbols.specs.Meaning.{meaning};

use model::TextKind;

const INTEGER_TEXT: u32 = 65;

const OTHER_TEXT: u32 = 66;

// kept: a symbol says one of three things; with an Option around two of them each match has the same three arms, one level deeper
#[derive(Clone, Copy)]
pub enum Symbol {
    // a tag, by its number
    Tag(u32),
    Text(TextKind),
    // no node has this symbol
    Nothing,
}

impl From<u32> for Symbol {
    ghost from_gives = { λ word symbol. meaning symbol ≡ symbol_of word };

    // What a symbol says. Whether there are that many tags is for the caller to test.
    fn from(word: u32) -> Symbol {
        // most symbols are tags of lists of at most 64 names
        if word < INTEGER_TEXT {
            if word == 0 {
                return Symbol::Nothing;
            }
            return Symbol::Tag(word);
        }
        match word {
            INTEGER_TEXT => Symbol::Text(TextKind::Integer),
            OTHER_TEXT => Symbol::Text(TextKind::Other),
            _ => Symbol::Tag(word),
        }
    }
}

// The symbol of a text of a kind.
// kept: From<TextKind> for u32 belongs to another crate; with From<Symbol>, Tag(65) and an integer text would give one word, 65
pub fn of_kind(kind: TextKind) -> u32
    ensures { symbol_of result ≡ of_text (text_kind kind) }
{
    // kept: a number for each kind, by document 01; no step is run
    match kind {
        TextKind::Integer => INTEGER_TEXT,
        TextKind::Other => OTHER_TEXT,
    }
}

// The symbol of a text of kind 1 or 2. Any other number is taken as 2.
pub fn of_text(kind: u32) -> u32
    ensures { (1 ≤ kind) × (kind ≤ 2) → symbol_of result ≡ of_text kind }
{
    if kind == 1 {
        of_kind(TextKind::Integer)
    } else {
        of_kind(TextKind::Other)
    }
}
