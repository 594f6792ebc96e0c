// Content: the states that an element's children reach together, by the kind-three rules.
#![tactic(auto)]

ghost use Rattle.std.specs.Prelude.{◌≡◌, ◌≢◌, length};
ghost use Rattle.model.specs.Index.{rules_in, key};
ghost use Rattle.judge_order.specs.Order.{states_of};
ghost use Rattle.judge_contents.specs.Content.{CountIf, CountHolds, FindsTargets, FindsContent, Counted};

use indexed::Spot;
use judge_count::{Counts, STATES, occurrences};
use judge_order::{Children, Reading, read_order};
use judge_rules::{Book, Found};
use parts::CONTENT_KEY;

// The children of an element, how often each state occurs among them if a rule has a count part, and the rules that are tried.
#[derive(Clone, Copy)]
struct Element<'a, 'c> {
    book: &'a Book<'a>,
    children: Children<'a>,
    counts: Option<Counts<'c>>,
    ghost counted: { Counted (rules_in book.now.sheet.words.now) counts (states_of children.words.now) },
}

impl Element<'_, '_> {
    ghost use Rattle.indexed.specs.Rules.{rule_of};
    ghost use Rattle.judge_contents.specs.Tries.{Tries};

    // Whether the children fit a rule's count part, if it has one; where a rule has one, there are counts.
    // In place, so that a rule without a count part costs no call.
    #[inline(always)]
    fn count_holds(&self, part: Option<&[u32]>) -> bool
        requires { CountIf part }
        ensures { CountHolds part.entry self.now.counts result }
    {
        match (part, self.counts) {
            (Some(part), Some(counts)) => counts.fit(part),
            _ => true,
        }
    }

    // Try a kind-three rule: an order part, a count part, or both or none; a count part is what is left up to the target.
    fn try_rule(&self, rule: &Spot) -> Reading
        requires sheet { rule.now.sheet ≡ self.now.book.now.sheet }
        requires content { key (rule_of rule.now) ≡ 0 }
        ensures { Tries rule.now (states_of self.now.children.words.now) result.fits result.reads }
    {
        let words = rule.sheet.words;
        let part = rule.at + 1;
        if !rule.has_order() {
            return Reading {
                fits: self.count_holds((part < rule.target).then_some(&words[part..rule.target])),
                reads: self.children.words.len(),
            };
        }
        // four words, of which the last is the number of the arcs after them
        // kept: `parts::order_length` is total, so it tests the index of this word, which is proved here to be within the sheet
        let middle = part + 4 + words[part + 3] as usize;
        let order = read_order(&words[part..middle], self.children);
        if !order.fits {
            return order;
        }
        Reading {
            fits: self.count_holds((middle < rule.target).then_some(&words[middle..rule.target])),
            reads: order.reads,
        }
    }

    // Try every kind-three rule, along their chain.
    fn try_all(&self) -> Found
        ensures { FindsTargets (rules_in self.now.book.now.sheet.words.now) (states_of self.now.children.words.now) result }
    {
        let mut targets: u64 = 0;
        let mut looks: usize = 0;
        for rule in self.book.sheet.chain(CONTENT_KEY) {
            let tried = self.try_rule(&rule);
            targets = bits::with_if(tried.fits, targets, rule.target_state());
            looks += 1 + tried.reads;
        }
        Found { targets, looks }
    }
}

// The states that content reaches whose children are these, none or several: every kind-three rule is tried.
// Occurrences are counted once for all of them, and not where no rule has a count part.
pub fn content(book: &Book<'_>, children: Children) -> Found
    requires { length children.words.now ≢ 1 }
    ensures { FindsContent (rules_in book.now.sheet.words.now) (states_of children.entry.words.now) result }
{
    if book.rules.counted == 0 {
        let element = Element {
            book,
            children,
            counts: None,
        };
        return element.try_all();
    }
    let mut counts = [0; STATES];
    occurrences(children, &mut counts);
    let element = Element {
        book,
        children,
        counts: Some(Counts { each: &counts }),
    };
    element.try_all()
}
