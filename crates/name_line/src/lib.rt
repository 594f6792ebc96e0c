// What is asked of a line of a name list by itself.
#![tactic(auto)]

ghost use Rattle.std.specs.Prelude.{◌≡◌};
ghost use Rattle.model.specs.Bytes.{is_name};
ghost use Rattle.name_line.specs.Named.{named_line};

use chars::Class;

const LINE_FEED: u8 = b'\n';

// The most bytes a name may have.
const LONGEST_NAME: usize = 24;

// Whether a line is a name of at most 24 bytes and a line feed.
#[tactic(auto, using(crate::proofs::Names::line_laws))]
pub fn named_line(line: &[u8]) -> bool
    ensures { result ≡ named_line line.now }
{
    let Some((last, name)) = line.split_last() else {
        return false;
    };
    if LONGEST_NAME < name.len() {
        return false;
    }
    if *last != LINE_FEED {
        return false;
    }
    is_name(name)
}

// Whether the bytes are a letter, then letters, digits and hyphens.
fn is_name(bytes: &[u8]) -> bool
    ensures { result ≡ is_name bytes.now }
{
    let Some((first, rest)) = bytes.split_first() else {
        return false;
    };
    if Class::from(*first) != Class::Letter {
        return false;
    }
    rest.iter().all(|&byte| Class::from(byte).in_name())
}
