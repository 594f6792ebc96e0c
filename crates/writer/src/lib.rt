// Writing a tree as a form: refusals 8, 1, 10, 11, 24 and 22, in that order, and then the bytes.
#![tactic(auto)]

ghost use Rattle.std.specs.Prelude.{◌≡◌};
ghost use Rattle.model.specs.Answers.{said};
ghost use Rattle.model.specs.Calls.{write_said, write_out};
ghost use Rattle.writer.specs.Passed.{Passed};

use layout::{MOST_BYTES, MOST_LEVELS};
use model::Refusal;
use offsets::MOST_NAMES;
use write_bytes::Form;
use write_form::Siblings;
use write_measure::measure;
use write_nodes::Sources;

// The form of a tree over a name list, with its texts taken from a source text, goes to the front of `out`; its number of bytes.
// kept: C lends list, text, tree and buffer one by one
pub fn write(list: &[u8], text: &[u8], tree: &[u32], out: &mut [u8]) -> Result<usize, Refusal>
    ensures answer { said result ≡ write_said list.now text.now tree.now out.old }
    ensures buffer { out.new ≡ write_out list.now text.now tree.now out.old }
{
    let tags = names::check(list)?;
    if MOST_BYTES < text.len() {
        return Err(Refusal::LongText);
    }
    tree::check(tree, tags as u32)?;
    // where each name lies, found once
    let mut starts = [0; MOST_NAMES + 1];
    offsets::index(list, &mut starts);
    let sources = Sources {
        list,
        starts: &starts,
        text,
        tree,
    };
    write_passed(&sources, out)
}

// The same, once list, text and tree have passed their checks.
fn write_passed(sources: &Sources, out: &mut [u8]) -> Result<usize, Refusal>
    requires { Passed sources.now.list.now sources.now.text.now sources.now.tree.now }
    ensures answer { said result ≡ write_said sources.now.list.now sources.now.text.now sources.now.tree.now out.old }
    ensures buffer { out.new ≡ write_out sources.now.list.now sources.now.text.now sources.now.tree.now out.old }
{
    let bytes = measure(sources)?;
    if MOST_BYTES < bytes {
        return Err(Refusal::LongForm(bytes));
    }
    if out.len() < bytes {
        return Err(Refusal::ShortBuffer(bytes));
    }
    let root = Siblings {
        sources,
        levels: MOST_LEVELS,
        first: 0,
        end: sources.nodes(),
    };
    root.put_into(&mut Form::new(out));
    Ok(bytes)
}
