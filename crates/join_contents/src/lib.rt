// The joint rules of content rules.
#![tactic(auto)]

ghost use Rattle.std.specs.Prelude.{◌≡◌, ◌≢◌, get_or};
ghost use Rattle.model.specs.Spans.{map_of};
ghost use Rattle.page.specs.Page.{Writes};
ghost use Rattle.join_alike.specs.Alike.{pair_joint, FewPositions};
ghost use Rattle.join_contents.specs.Parts.{map_in, order_in, count_in, pair_words};

use join_alike::RulePair;
use join_count::{join_counts, lift_count};
use join_order::{lift_order, pair_order};
use join_pairs::{Both, Side};
use layout::{CONTENT_RULE, COUNT_RULE, ORDER_COUNT_RULE, ORDER_RULE};
use page::Page;

// The map of a content rule.
fn content_map(ordered: bool, counted: bool) -> u32
    ensures { result ≡ map_of ordered counted }
{
    match (ordered, counted) {
        (true, true) => ORDER_COUNT_RULE,
        (true, false) => ORDER_RULE,
        (false, true) => COUNT_RULE,
        (false, false) => CONTENT_RULE,
    }
}

// The map of the joint rule of two content rules: it has a part if one of them has.
fn joint_map(rules: &RulePair) -> u32
    ensures { result ≡ map_in rules.now }
{
    let ordered = rules.s.has_order() | rules.t.has_order();
    let counted = rules.s.has_count() | rules.t.has_count();
    content_map(ordered, counted)
}

// Writes the joint order part of two rules, if there is one.
// kept: rules are read, a page is written; FewPositions is no field of a pair: the tally has the same pairs before limits are told
fn put_order(rules: &RulePair, page: &mut Page)
    requires { FewPositions (pair_joint rules.now) }
    ensures { Writes page.old (order_in rules.now) page.new }
{
    let sizes = rules.sizes;
    match (rules.s.order_part(), rules.t.order_part()) {
        (Some(s), Some(t)) => pair_order(Both { s, t }, sizes, page),
        (Some(s), None) => lift_order(s, sizes.half(Side::S), page),
        (None, Some(t)) => lift_order(t, sizes.half(Side::T), page),
        (None, None) => {}
    }
}

// Writes the joint count part of two rules, if there is one.
// kept: tried: one function for both, over the two writers, took seven clauses where these have one or two, and three goals stayed open
fn put_count(rules: &RulePair, page: &mut Page)
    ensures { Writes page.old (count_in rules.now) page.new }
{
    let sizes = rules.sizes;
    match (rules.s.count_part(), rules.t.count_part()) {
        (Some(s), Some(t)) => join_counts(Both { s, t }, sizes, page),
        (Some(s), None) => lift_count(s, sizes.half(Side::S), page),
        (None, Some(t)) => lift_count(t, sizes.half(Side::T), page),
        (None, None) => {}
    }
}

// Writes the joint rule of two content rules.
pub fn put_contents(rules: &RulePair, page: &mut Page)
    requires few { FewPositions (pair_joint rules.now) }
    requires map { (get_or rules.now.s.sheet.words.now rules.now.s.at 0 ≢ 33) × (get_or rules.now.s.sheet.words.now rules.now.s.at 0 ≢ 38) }
    ensures { Writes page.old (pair_words rules.now) page.new }
{
    page.put(joint_map(rules));
    put_order(rules, page);
    put_count(rules, page);
    let target = rules
        .sizes
        .pair(rules.s.target_state(), rules.t.target_state());
    page.put(target);
}
