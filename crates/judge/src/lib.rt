// Judge a tree by a sheet: the verdict with its looks, and each node's state.
#![tactic(auto)]

ghost use Rattle.std.specs.Prelude.{◌≡◌, ◌*◌, ◌/◌, ◌≤◌, length, get_or};
ghost use Rattle.model.specs.Answers.{said_judgement, looks_in};
ghost use Rattle.model.specs.Calls.{judge_said, judge_states};

use indexed::IndexedSheet;
use judge_run::judge_nodes;
use layout::{INDEX_WORDS, TAGS};
use model::{Refusal, Verdict};

// The verdict, with a state word for each node of the tree to the front of `states`; or 9, 10, 22 or 23. Only 23 writes,
// a 0 for each node. At most 2 × nodes × rules looks.
// kept: C lends sheet, tree and state words one by one
pub fn judge(sheet: &[u32], tree: &[u32], states: &mut [u32]) -> Result<Verdict, Refusal>
    ensures answer { said_judgement result ≡ judge_said sheet.now tree.now states.old }
    ensures states { states.new ≡ judge_states sheet.now tree.now states.old }
    ensures bound { looks_in (said_judgement result) ≤ 2 * (length tree.now / 4) * get_or sheet.now 5 0 }
{
    let mut index = [0u32; INDEX_WORDS];
    // kept: the refusal has a name, so that a must-fail edit can tell another in its place, and change nothing else
    if let Err(refusal) = sheet::index(sheet, &mut index) {
        return Err(refusal);
    }
    let n = tree::check(tree, parts::at(sheet, TAGS))?;
    if states.len() < n {
        return Err(Refusal::ShortBuffer(n));
    }
    let indexed = IndexedSheet {
        words: sheet,
        index: &index,
    };
    judge_nodes(&indexed, tree, &mut states[..n])
}
