// The run: every node judged, from the last to node 0; and its verdict.
#![tactic(auto)]

ghost use Rattle.std.specs.Prelude.{◌≡◌, length};
ghost use Rattle.model.specs.Answers.{said_judgement};
ghost use Rattle.judge_node.specs.Node.{Shaped};
ghost use Rattle.judge_run.specs.Run.{Form, Ends, verdict_on, states_on};

use indexed::IndexedSheet;
use judge_contents::content;
use judge_node::{Node, Nodes};
use judge_order::Children;
use judge_rules::Book;
use judge_states::{NO_STATE, state_word, verdict};
use layout::MOST_NODES;
use model::{Refusal, Verdict};

// Judges every node, and gives the looks. Where a node reaches two states, no node has one.
// kept: the tree is read, and the state words are written between two nodes that read them
fn run<'a>(sheet: &IndexedSheet<'a>, tree: &'a [u32], states: &mut [u32]) -> Result<usize, Refusal>
    requires { Shaped tree.now (length states.old) }
    ensures { Ends sheet.now.words.now tree.now states.old result states.new }
{
    let book = &Book::new(*sheet);
    // content without children is the same wherever it is
    let nothing = content(book, Children { words: &[] });
    let mut words = [0u32; MOST_NODES];
    let mut looks: usize = 0;
    for i in (0..states.len()).rev() {
        let node = Node {
            book,
            nothing,
            nodes: Nodes { tree, states },
            number: i,
        };
        let found = node.judge(&mut words);
        let Some(word) = state_word(found.targets) else {
            states.fill(NO_STATE);
            return Err(Refusal::TwoStates(i));
        };
        states[i] = word;
        looks += found.looks;
    }
    Ok(looks)
}

// The verdict of a sheet and a tree that pass, with a state word for each node.
pub fn judge_nodes<'a>(
    sheet: &IndexedSheet<'a>,
    tree: &'a [u32],
    states: &mut [u32],
) -> Result<Verdict, Refusal>
    requires { Form sheet.now.words.now tree.now (length states.old) }
    ensures answer { said_judgement result ≡ verdict_on sheet.now.words.now tree.now }
    ensures states { states.new ≡ states_on sheet.now.words.now tree.now states.old }
{
    let looks = run(sheet, tree, states)?;
    Ok(verdict(sheet.words, states, looks as u32))
}
