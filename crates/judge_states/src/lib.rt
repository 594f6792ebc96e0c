// State words: that of a node, those of all nodes, and the verdict that they give.
#![tactic(auto)]

ghost use Rattle.std.specs.Prelude.{◌≡◌, ◌<◌, length};
ghost use Rattle.model.specs.Answers.{said_verdict};
ghost use Rattle.model.specs.Run.{root_verdict};
ghost use Rattle.model.specs.Index.{sheet_in, Passes};
ghost use Rattle.judge_states.specs.States.{WordOf};

use layout::FINAL;
use model::Verdict;

// The state word of a node that reaches no state; a state's is one more than the state.
// kept: state words are C's, in a lent buffer of words; a type for one would be made and taken apart at each read
pub const NO_STATE: u32 = 0;

// The state word of a node that reaches these states; none where there are two or more.
pub fn state_word(targets: u64) -> Option<u32>
    ensures { WordOf targets result }
{
    let mut members = bits::members(targets);
    match (members.next(), members.next()) {
        (None, _) => Some(NO_STATE),
        (Some(state), None) => Some(state + 1),
        _ => None,
    }
}

// Accepted or refused with the root's state, or stuck at the highest-numbered node without one.
// kept: a sheet that passes is all that is asked; an `IndexedSheet`, which has the fact, would ask its caller for an index too
pub fn verdict(sheet: &[u32], states: &[u32], looks: u32) -> Verdict
    requires sheet { Passes sheet.now }
    requires nodes { 0 < length states.now }
    ensures { said_verdict result ≡ root_verdict (sheet_in sheet.now).final states.now looks }
{
    let root = states[0];
    if root == NO_STATE {
        // the root, if it is no other node
        let node = states.iter().rposition(|&word| word == NO_STATE).unwrap();
        return Verdict::Stuck { node, looks };
    }
    let state = root - 1;
    let finals = parts::set_at(sheet, FINAL);
    if bits::has(finals, state) {
        return Verdict::Accepted { state, looks };
    }
    Verdict::Refused { state, looks }
}
