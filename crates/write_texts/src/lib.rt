// Refusal 11: text words that are wrong.
#![tactic(auto)]

ghost use Rattle.std.specs.Prelude.{◌≡◌};
ghost use Rattle.model.specs.Bytes.{text_kind};
ghost use Rattle.model.specs.Written.{trimmed_text, good_text};
ghost use Rattle.write_nodes.specs.Nodes.{span_of};

use model::TextKind;
use write_nodes::Node;

// Whether bytes are a text that is trimmed at both ends.
fn trimmed(s: &[u8]) -> bool
    ensures { result ≡ trimmed_text s.now }
{
    let Some(first) = s.first() else {
        return false;
    };
    let Some(last) = s.last() else {
        return false;
    };
    if chars::is_white(*first) | chars::is_white(*last) {
        return false;
    }
    // kept: no way out of the loop, so that many bytes are tested together; `all` stops at a bad byte, and a fold would hold this same flag
    let mut good = true;
    for byte in s {
        good = good & chars::in_text(*byte);
    }
    good
}

// Whether the text words of a node are those of a trimmed text of a kind.
pub fn good_text(text: &[u8], node: Node, kind: TextKind) -> bool
    ensures { result ≡ good_text text.now (text_kind kind) (span_of node) }
{
    // a true sum: 64 bits hold that of two words
    let start = node.start as usize;
    let end = start + node.bytes as usize;
    let Some(s) = text.get(start..end) else {
        return false;
    };
    trimmed(s) & (chars::kind_of(s) == kind)
}
