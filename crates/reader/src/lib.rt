// Reads a form's text by a name list into the words of a tree.
//
// A text is read in one pass, token by token, and each node becomes one word of four fields. They are unpacked into the lent tree
// only when nothing is refused and there is room. The word of an open element holds its parent's node where its size is to stand,
// so the open elements are a chain, and need no stack.
#![tactic(auto)]

ghost use Rattle.std.specs.Prelude.{◌≡◌};
ghost use Rattle.model.specs.Answers.{said, passes};
ghost use Rattle.model.specs.Calls.{read_said, read_tree};
ghost use Rattle.model.specs.Names.{names_of};
ghost use Rattle.offsets.specs.Lines.{line_count};

use layout::{MOST_BYTES, MOST_NODES, NODE_WORDS};
use model::Refusal;
use read_form::scan_form;
use read_nodes::unpack;

// The number of nodes, whose words go to the front of the tree; or the first of the refusals 8, 1, 2 to 7 and 22, which leaves the
// tree as it was.
// kept: C lends list, text and tree one by one
pub fn read(list: &[u8], text: &[u8], tree: &mut [u32]) -> Result<usize, Refusal>
    ensures answer { said result ≡ read_said list.now text.now tree.old }
    ensures buffer { tree.new ≡ read_tree list.now text.now tree.old }
{
    names::check(list)?;
    read_by(list, text, tree)
}

// The same, by a list that passes its check.
// kept: the three slices of the call; a struct of them would be made for this one call
fn read_by(list: &[u8], text: &[u8], tree: &mut [u32]) -> Result<usize, Refusal>
    requires { names_of list.now ≡ passes (line_count list.now) }
    ensures answer { said result ≡ read_said list.now text.now tree.old }
    ensures buffer { tree.new ≡ read_tree list.now text.now tree.old }
{
    if MOST_BYTES < text.len() {
        return Err(Refusal::LongText);
    }
    let mut words = [0u64; MOST_NODES];
    let nodes = scan_form(list, text, &mut words)?;
    if tree.len() < NODE_WORDS * nodes {
        return Err(Refusal::ShortBuffer(NODE_WORDS * nodes));
    }
    unpack(&words[..nodes], tree);
    Ok(nodes)
}
