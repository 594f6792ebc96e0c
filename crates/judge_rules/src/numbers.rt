// How many rules of each kind a sheet has.
ghost use Rattle.std.specs.Prelude.{◌≡◌};
ghost use Rattle.model.specs.Index.{rules_in};
ghost use Rattle.judge_rules.specs.Rules.{RulesOf};

use indexed::IndexedSheet;
use layout::{TAG_RULE, TEXT_RULE};

// The number of kind-one rules, of kind-two rules, and of rules with a count part.
#[derive(Clone, Copy)]
pub struct Rules {
    pub ones: usize,
    pub twos: usize,
    pub counted: usize,
}

// A sheet with its index, and the numbers of its rules.
#[derive(Clone, Copy)]
pub struct Book<'a> {
    pub sheet: IndexedSheet<'a>,
    pub rules: Rules,
    pub ghost known: { RulesOf (rules_in sheet.words.now) rules },
}

impl<'a> Book<'a> {
    // The rules are counted once in a run.
    pub fn new(sheet: IndexedSheet<'a>) -> Book<'a>
        ensures { result.sheet ≡ sheet.entry }
    {
        Book {
            sheet,
            rules: count_rules(&sheet),
        }
    }
}

// The numbers of a sheet's rules.
fn count_rules(sheet: &IndexedSheet) -> Rules
    ensures { RulesOf (rules_in sheet.now.words.now) result }
{
    let mut ones = 0;
    let mut twos = 0;
    let mut counted = 0;
    for rule in sheet.spots() {
        let map = rule.map();
        ones += usize::from(map == TEXT_RULE);
        twos += usize::from(map == TAG_RULE);
        counted += usize::from(parts::has_count(map));
    }
    Rules {
        ones,
        twos,
        counted,
    }
}
