// Writes the joint rules of two sheets.
#![tactic(auto)]

ghost use Rattle.std.specs.Prelude.{◌≡◌, get_or};
ghost use Rattle.page.specs.Page.{Writes};
ghost use Rattle.join_alike.specs.Alike.{pair_joint, row_joint, sheets_joint, FewPositions};
ghost use Rattle.join_contents.specs.Parts.{pair_words};
ghost use Rattle.join_rules.specs.Written.{StatesAt, state_in, row_words, joint_words};

use join_alike::{Row, RulePair, Sheets};
use join_contents::put_contents;
use layout::{TAG_RULE, TEXT_RULE};
use page::Page;

// The pair of the states that are word k of two rules.
fn joint_state(rules: &RulePair, k: usize) -> u32
    requires { StatesAt rules.now k }
    ensures { result ≡ state_in rules.now k }
{
    let s = rules.s.sheet.words[rules.s.at + k];
    let t = rules.t.sheet.words[rules.t.at + k];
    rules.sizes.pair(s, t)
}

// Writes the joint rule of two rules of a text: its kind and the pair of the targets.
fn put_texts(rules: &RulePair, page: &mut Page)
    requires { get_or rules.now.s.sheet.words.now rules.now.s.at 0 ≡ 33 }
    ensures { Writes page.old (pair_words rules.now) page.new }
{
    let kind = rules.s.word(1);
    let target = joint_state(rules, 2);
    page.copy(&[TEXT_RULE, kind, target]);
}

// Writes the joint rule of two rules of a tag: the tag, the pair of the inner states and the pair of the targets.
fn put_tags(rules: &RulePair, page: &mut Page)
    requires { get_or rules.now.s.sheet.words.now rules.now.s.at 0 ≡ 38 }
    ensures { Writes page.old (pair_words rules.now) page.new }
{
    let tag = rules.s.word(1);
    let inner = joint_state(rules, 2);
    let target = joint_state(rules, 3);
    page.copy(&[TAG_RULE, tag, inner, target]);
}

// Writes the joint rule of two rules with one key.
fn put_pair(rules: &RulePair, page: &mut Page)
    requires { FewPositions (pair_joint rules.now) }
    ensures { Writes page.old (pair_words rules.now) page.new }
{
    // kept: document 01's form, a match over rule maps
    match rules.s.map() {
        TEXT_RULE => put_texts(rules, page),
        TAG_RULE => put_tags(rules, page),
        _ => put_contents(rules, page),
    }
}

// Writes the joint rules of a rule of S and the rules of T with its key.
fn put_row(row: &Row, page: &mut Page)
    requires { FewPositions (row_joint row.now) }
    ensures { Writes page.old (row_words row.now) page.new }
{
    for rules in row.pairs() {
        put_pair(&rules, page);
    }
}

// Writes the joint rules of two sheets, S's order outermost.
pub fn put_rules(sheets: &Sheets, page: &mut Page)
    requires { FewPositions (sheets_joint sheets.now) }
    ensures { Writes page.old (joint_words sheets.now) page.new }
{
    for row in sheets.rows() {
        put_row(&row, page);
    }
}
