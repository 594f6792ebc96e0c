// A node that is judged, by its symbol and by its children's state words.
ghost use Rattle.std.specs.Prelude.{◌^◌, ◌≤◌, length};
ghost use Rattle.judge_rules.specs.Found.{Finds};
ghost use Rattle.judge_node.specs.Node.{lone_states};
ghost use Rattle.judge_node.specs.Judging.{Judging};

use crate::children::Nodes;
use judge_contents::content;
use judge_order::Children;
use judge_rules::{Book, Found};
use layout::NODE_WORDS;
use symbols::Symbol;

// no state is reached, and no look taken
const NOTHING: Found = Found {
    targets: 0,
    looks: 0,
};

// What content of one child reaches, by that child's state word: the child's state, and no rule is tried.
fn lone(word: u32) -> Found
    requires { word ≤ 64 }
    ensures { Finds (2 ^ 42) result (lone_states word) 0 }
{
    if word == 0 {
        return NOTHING;
    }
    Found {
        targets: bits::with_if(true, 0, word - 1),
        looks: 0,
    }
}

// A node by its number, where the nodes after it have their state words; the book that judges it, and what content without children
// reaches.
#[derive(Clone, Copy)]
pub struct Node<'b, 'a, 's> {
    pub book: &'b Book<'a>,
    pub nothing: Found,
    pub nodes: Nodes<'a, 's>,
    pub number: usize,
    pub ghost judging: { Judging book.now.sheet.words.now nothing nodes.states.now number },
}

impl Node<'_, '_, '_> {
    ghost use Rattle.judge_node.specs.Found.{FindsInside, FindsNode};

    // What its content reaches, by its children: none, one or several; nothing where one of several has no state. `words` is lent to
    // gather their state words in.
    fn inside(&self, words: &mut [u32]) -> Found
        requires { length self.now.nodes.states.now ≤ length words.old }
        ensures { FindsInside self.now result }
    {
        let mut children = self.nodes.children(self.number);
        let Some(word) = children.next() else {
            return self.nothing;
        };
        if children.is_empty() {
            return lone(word);
        }
        match self.nodes.children(self.number).gather(words) {
            Some(words) => content(self.book, Children { words }),
            None => NOTHING,
        }
    }

    // The states that it reaches, a text or an element. `words` is lent to gather its children's state words in.
    pub fn judge(&self, words: &mut [u32]) -> Found
        requires { length self.now.nodes.states.now ≤ length words.old }
        ensures { FindsNode self.now result }
    {
        match Symbol::from(self.nodes.tree[NODE_WORDS * self.number]) {
            Symbol::Text(kind) => Found {
                targets: self.book.text_targets(kind),
                looks: self.book.rules.ones,
            },
            Symbol::Tag(tag) => {
                let inside = self.inside(words);
                self.book.tagged(tag, inside)
            }
            // no node of a tree that passes
            Symbol::Nothing => NOTHING,
        }
    }
}
