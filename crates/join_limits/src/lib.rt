// The limits of a joint sheet's rules and the number of their words, by a tally of them.
#![tactic(auto)]

ghost use Rattle.std.specs.Prelude.{◌≡◌, ◌+◌, ◌*◌, ◌^◌, ◌≤◌};

use join_alike::{Row, RulePair, Sheets};
use join_extents::{Extent, extent_at, fixed_words};
use join_pairs::Side;
use limits::{Limit, earlier, first_over};

const MOST_RULES: usize = layout::MOST_RULES as usize;

// the words of a rule of content that are in none of its parts
const CONTENT_WORDS: usize = 2;

// How many rules there are, the first limit that one of them exceeds, and how many words they have.
#[derive(Clone, Copy)]
pub struct Tally {
    pub rules: usize,
    pub over: Option<Limit>,
    pub words: usize,
    pub ghost few: { words ≤ 2 ^ 21 * rules },
}

impl Tally {
    ghost use Rattle.model.specs.Compose.{S, of_pairs};
    ghost use Rattle.limits.specs.Limits.{earlier};
    ghost use Rattle.join_pairs.specs.Sides.{sizes_of};
    ghost use Rattle.indexed.specs.Rules.{rule_of};
    ghost use Rattle.join_alike.specs.Alike.{pair_joint, row_joint, sheets_joint};
    ghost use Rattle.join_extents.specs.Extents.{Small, extent_of};
    ghost use Rattle.join_limits.specs.Limits.{TallyOf, LimitOf};

    // That of no rules.
    fn none() -> Tally
        ensures rules { result.rules ≡ 0 }
        ensures over { result.over ≡ None }
        ensures words { result.words ≡ 0 }
    {
        Tally {
            rules: 0,
            over: None,
            words: 0,
        }
    }

    // That of some rules and of more.
    fn with(self, more: Tally) -> Tally
        requires { self.rules + more.rules ≤ 2048 }
        ensures rules { result.rules ≡ self.rules + more.rules }
        ensures over { result.over ≡ earlier self.over more.over }
        ensures words { result.words ≡ self.words + more.words }
    {
        Tally {
            rules: self.rules + more.rules,
            over: earlier(self.over, more.over),
            words: self.words + more.words,
        }
    }

    // That of the joint rule of two rules, of which S's has the extent `own`. Rules of texts and of tags have no parts.
    fn of_pair(pair: &RulePair, own: Extent) -> Tally
        requires own { own ≡ extent_of S (sizes_of pair.now.sizes) (rule_of pair.now.s) }
        requires small { Small own }
        ensures { TallyOf (of_pairs (sizes_of pair.now.sizes)) (pair_joint pair.now) result }
    {
        let fixed = fixed_words(&pair.s);
        if CONTENT_WORDS < fixed {
            return Tally {
                rules: 1,
                over: None,
                words: fixed,
            };
        }
        let other = extent_at(&pair.t, pair.sizes.half(Side::T));
        let joint = own.joint(other, pair.sizes);
        Tally {
            rules: 1,
            over: first_over(joint.positions(), joint.arcs(), joint.steps()),
            words: joint.words(fixed),
        }
    }

    // That of the joint rules of a rule of S and the rules of T with its key.
    fn of_row(row: &Row) -> Tally
        ensures { TallyOf (of_pairs (sizes_of row.now.sizes)) (row_joint row.now) result }
    {
        let own = extent_at(&row.rule, row.sizes.half(Side::S));
        let mut tally = Tally::none();
        for pair in row.pairs() {
            tally = tally.with(Tally::of_pair(&pair, own));
        }
        tally
    }

    // That of the joint rules of two sheets, or the first limit that they exceed.
    pub fn of_sheets(sheets: &Sheets) -> Result<Tally, Limit>
        ensures { LimitOf (of_pairs (sizes_of sheets.now.sizes)) (sheets_joint sheets.now) result }
    {
        let mut tally = Tally::none();
        for row in sheets.rows() {
            tally = tally.with(Tally::of_row(&row));
            if MOST_RULES < tally.rules {
                return Err(Limit::Rules);
            }
        }
        match tally.over {
            Some(limit) => Err(limit),
            None => Ok(tally),
        }
    }
}
