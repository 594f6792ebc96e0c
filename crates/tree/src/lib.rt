// The tree check: refusal 10. A tree is nodes in document order, four words each: symbol, size, text start, text length.
#![tactic(auto)]

ghost use Rattle.std.specs.Prelude.{◌≡◌, false, ◌*◌, ◌≤◌, length};
ghost use Rattle.model.specs.Answers.{said};
ghost use Rattle.model.specs.Calls.{tree_said};
ghost use Rattle.tree.specs.Shape.{shape_at};

use layout::{MOST_LEVELS, MOST_NODES, NODE_WORDS};
use model::Refusal;
use tree_look::{Seen, TreeWords};

// Checks the nodes from `first` up to `end`, side by side under one parent; calls itself for what is inside a child element, with one
// level less.
fn children(tree: &TreeWords, levels: u32, first: usize, end: usize) -> Result<(), Refusal>
    requires { 4 * end ≤ length tree.now.words.now }
    ensures { result ≡ shape_at tree.now.words.now tree.now.tags levels first end false }
{
    let mut i = first;
    let mut after_text = false;
    while let Some(seen) = tree.look(levels, i, end, after_text)? {
        match seen {
            Seen::Text => {
                i += 1;
                after_text = true;
            }
            Seen::Element(next) => {
                children(tree, levels - 1, i + 1, next)?;
                i = next;
                after_text = false;
            }
        }
    }
    Ok(())
}

// The number of nodes of a tree over so many tags, or refusal 10.
pub fn check(tree: &[u32], tags: u32) -> Result<usize, Refusal>
    ensures { said result ≡ tree_said tags tree.now }
{
    let n = tree.len() / NODE_WORDS;
    let counted = (tree.len() % NODE_WORDS == 0) & (1 <= n) & (n <= MOST_NODES);
    if !counted {
        return Err(Refusal::Tree(n));
    }
    let words = TreeWords { words: tree, tags };
    if !words.is_root(n) {
        return Err(Refusal::Tree(0));
    }
    children(&words, MOST_LEVELS - 1, 1, n)?;
    Ok(n)
}
