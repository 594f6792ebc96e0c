// What a form is written from: the nodes of a tree by their words, the names of their tags, and the text of their texts.
#![tactic(auto)]

ghost use Rattle.std.specs.Prelude.{◌≡◌, ◌+◌, ◌*◌, ◌/◌, ◌≤◌, length};
ghost use Rattle.model.specs.Names.{name_of};
ghost use Rattle.offsets.specs.Lines.{Indexed};
ghost use Rattle.write_nodes.specs.Nodes.{node_at, Tag};

use layout::NODE_WORDS;
use offsets::MOST_NAMES;

// The four words of a node.
#[derive(Clone, Copy)]
pub struct Node {
    pub symbol: u32,
    pub size: u32,
    pub start: u32,
    pub bytes: u32,
}

// A name list with the offsets of its lines, as `offsets::index` gives them; the text that texts are taken from; and a tree.
#[derive(Clone, Copy)]
pub struct Sources<'a> {
    pub list: &'a [u8],
    pub starts: &'a [usize; MOST_NAMES + 1],
    pub text: &'a [u8],
    pub tree: &'a [u32],
    pub ghost indexed: { Indexed list.now starts.now },
}

impl<'a> Sources<'a> {
    // How many nodes the tree has.
    pub fn nodes(&self) -> usize
        ensures { result ≡ length self.now.tree.now / 4 }
    {
        self.tree.len() / NODE_WORDS
    }

    pub fn node(&self, i: usize) -> Node
        requires { 4 * (i + 1) ≤ length self.now.tree.now }
        ensures { result ≡ node_at self.now.tree.now i }
    {
        let at = NODE_WORDS * i;
        Node {
            symbol: self.tree[at],
            size: self.tree[at + 1],
            start: self.tree[at + 2],
            bytes: self.tree[at + 3],
        }
    }

    // The name of a tag. A tree that passed its check has no other tags, so nothing is tested here, as `Table::name_of` does for any
    // number.
    pub fn name_of(&self, tag: u32) -> &'a [u8]
        requires { Tag self.now.list.now tag }
        ensures { result.now ≡ name_of self.now.list.now tag }
    {
        let a = tag as usize;
        // a byte 10 ends the name
        &self.list[self.starts[a - 1]..self.starts[a] - 1]
    }
}
