// What the rules of kinds one and two give, as sets of target states; and what an element reaches by its content.
ghost use Rattle.std.specs.Prelude.{◌≡◌, ◌+◌, ◌^◌, ◌≤◌, ◌<◌, length};
ghost use mathlib.Core.List.{flat_map};
ghost use Rattle.model.specs.Bytes.{text_kind};
ghost use Rattle.model.specs.Run.{text_targets};
ghost use Rattle.model.specs.Index.{rules_in};
ghost use Rattle.bits.specs.Stands.{Stands};
ghost use Rattle.judge_rules.specs.Rules.{with_target, at_tag_with};
ghost use Rattle.judge_rules.specs.Found.{TagFinds};

use crate::numbers::Book;
use indexed::Spot;
use model::TextKind;
use parts::TEXT_KINDS;

// A set of target states, and how many looks were taken to find it.
#[derive(Clone, Copy)]
pub struct Found {
    pub targets: u64,
    pub looks: usize,
}

// The key of the rules for a kind of text.
fn text_key(kind: TextKind) -> usize
    ensures { result ≡ text_kind kind }
{
    // kept: a key for each kind, as the index has it; no step is run
    match kind {
        TextKind::Integer => 1,
        TextKind::Other => 2,
    }
}

// The set with the target of a kind-two rule, if the rule's inner state is one of `inner`.
fn with_target(rule: &Spot, inner: u64, targets: u64) -> u64
    requires { rule.now.at + 3 < length rule.now.sheet.words.now }
    ensures { result ≡ with_target rule.now.sheet.words.now rule.now.at inner targets }
{
    let words = rule.sheet.words;
    // a branch: most rules of a tag have another inner state
    if bits::has(inner, words[rule.at + 2]) {
        return bits::with_if(true, targets, words[rule.at + 3]);
    }
    targets
}

impl<'a> Book<'a> {
    // The targets of the kind-one rules for a kind of text.
    pub fn text_targets(&self, kind: TextKind) -> u64
        ensures { Stands result (text_targets (rules_in self.now.sheet.words.now) (text_kind kind)) }
    {
        let mut targets = 0;
        for rule in self.sheet.chain(text_key(kind)) {
            targets = bits::with_if(true, targets, rule.sheet.words[rule.at + 2]);
        }
        targets
    }

    // The targets of the kind-two rules for a tag whose content reaches the states of `inner`.
    fn tag_targets(&self, tag: u32, inner: u64) -> u64
        requires { (1 ≤ tag) × (tag ≤ 64) }
        ensures { Stands result (flat_map (at_tag_with tag inner) (rules_in self.now.sheet.words.now)) }
    {
        let mut targets = 0;
        for rule in self.sheet.chain((TEXT_KINDS + tag) as usize) {
            targets = with_target(&rule, inner, targets);
        }
        targets
    }

    // What content reaches in an element with a tag: the kind-two rules are looked at where the content reaches a state.
    pub fn tagged(&self, tag: u32, inside: Found) -> Found
        requires { (1 ≤ tag) × (tag ≤ 64) × (inside.looks ≤ 2 ^ 42) }
        ensures { TagFinds (rules_in self.now.sheet.words.now) tag inside result }
    {
        let inner = inside.targets;
        let looks = inside.looks;
        if inner == 0 {
            return Found { targets: 0, looks };
        }
        Found {
            targets: self.tag_targets(tag, inner),
            looks: looks + self.rules.twos,
        }
    }
}
