// The length of a tree's form, and refusal 11, in one pass over the nodes.
#![tactic(auto)]

ghost use Rattle.std.specs.Prelude.{◌≡◌, ◌/◌, length};
ghost use Rattle.model.specs.Answers.{said, answer_of};
ghost use Rattle.write_nodes.specs.Nodes.{TagOf};
ghost use Rattle.write_measure.specs.Lengths.{own_bytes, Small, measured, Tags};

use model::Refusal;
use symbols::Symbol;
use write_nodes::{Node, Sources};
use write_texts::good_text;

// the bytes of <name/>, and of <name> and </name>, beside the name's
const EMPTY_MARKS: usize = 3;

const PAIR_MARKS: usize = 5;

// The bytes that a node adds to the form, those of its tags or of its text; None where its text words are wrong: those of a tag are 0,
// those of a text give a trimmed text of its kind.
fn own_bytes(sources: &Sources, node: Node) -> Option<usize>
    requires { TagOf sources.now.list.now node.symbol }
    ensures is { result ≡ own_bytes sources.now.list.now sources.now.text.now node }
    ensures small { Small result }
{
    match Symbol::from(node.symbol) {
        Symbol::Tag(tag) => {
            if !((node.start == 0) & (node.bytes == 0)) {
                return None;
            }
            let name = sources.name_of(tag);
            if node.size != 1 {
                return Some(PAIR_MARKS + 2 * name.len());
            }
            Some(EMPTY_MARKS + name.len())
        }
        Symbol::Text(kind) => {
            if !good_text(sources.text, node, kind) {
                return None;
            }
            Some(node.bytes as usize)
        }
        Symbol::Nothing => None,
    }
}

// The number of bytes of a tree's form, or the first node that 11 refuses.
pub fn measure(sources: &Sources) -> Result<usize, Refusal>
    requires { Tags sources.now.list.now sources.now.tree.now }
    ensures { said result ≡ answer_of (λ n. n)
        (measured sources.now.list.now sources.now.text.now sources.now.tree.now (length sources.now.tree.now / 4) 0 0) }
{
    let nodes = sources.nodes();
    let mut bytes = 0;
    // kept: nodes are found by number in the words, and refusal 11 has it as its place; try_fold would hide the same sum and test
    for i in 0..nodes {
        bytes += own_bytes(sources, sources.node(i)).ok_or(Refusal::TextWords(i))?;
    }
    Ok(bytes)
}
