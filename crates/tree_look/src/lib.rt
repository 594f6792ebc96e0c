// What stands at a node of a tree: at node 0, and under a parent.
#![tactic(auto)]

ghost use Rattle.std.specs.Prelude.{◌≡◌, ◌&&◌, ◌*◌, ◌≤◌, eqb, length};
ghost use Rattle.model.specs.Tree.{tag_symbol, symbol_at, size_at, look};
ghost use Rattle.tree_look.specs.Looked.{looked};

use layout::NODE_WORDS;
use model::Refusal;
use symbols::Symbol;

// What stands at a node that keeps the rules.
// kept: two kinds of nodes; as an Option a text would be no value, and `look` gives None already where no node is left
#[derive(Clone, Copy)]
pub enum Seen {
    Text,
    // an element, and the node before which it ends
    Element(usize),
}

// Whether a number is one of the tags.
pub fn is_tag(tags: u32, symbol: u32) -> bool
    ensures { result ≡ tag_symbol tags symbol }
{
    (1..=tags).contains(&symbol)
}

// The words of a tree, and how many tags its nodes may have.
#[derive(Clone, Copy)]
pub struct TreeWords<'a> {
    pub words: &'a [u32],
    pub tags: u32,
}

impl TreeWords<'_> {
    // Whether node 0 is an element whose size is the number of nodes.
    pub fn is_root(&self, nodes: usize) -> bool
        requires { 2 ≤ length self.now.words.now }
        ensures { result ≡ (tag_symbol self.now.tags (symbol_at self.now.words.now 0) && eqb (size_at self.now.words.now 0) nodes) }
    {
        is_tag(self.tags, self.words[0]) & (self.words[1] as usize == nodes)
    }

    // What stands at node i under a parent that ends before node `end`, or None where the parent ends there; a node that breaks a rule is
    // refused. `levels` elements may lie one in another, and `after_text` says that a text stands just before. A text's symbol makes a
    // text, also where there are so many tags that it is a tag's.
    pub fn look(
        &self,
        levels: u32,
        i: usize,
        end: usize,
        after_text: bool,
    ) -> Result<Option<Seen>, Refusal>
        requires { 4 * end ≤ length self.now.words.now }
        ensures { result ≡ looked i (look self.now.words.now self.now.tags levels i end after_text) }
    {
        if end <= i {
            return Ok(None);
        }
        let size = self.words[NODE_WORDS * i + 1] as usize;
        // a true sum: 64 bits hold a node's number and any 32-bit size
        let next = i + size;
        let fits = (0 < levels) & (1 <= size) & (next <= end);
        match Symbol::from(self.words[NODE_WORDS * i]) {
            Symbol::Text(_) if (size == 1) & !after_text => Ok(Some(Seen::Text)),
            Symbol::Tag(number) if is_tag(self.tags, number) & fits => Ok(Some(Seen::Element(
                next,
            ))),
            _ => Err(Refusal::Tree(i)),
        }
    }
}
