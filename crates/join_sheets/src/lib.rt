// The words of swapped and joint sheets.
#![tactic(auto)]

ghost use Rattle.std.specs.Prelude.{◌≡◌};
ghost use Rattle.model.specs.Sheet.{sheet_words};
ghost use Rattle.model.specs.Compose.{swapped};
ghost use Rattle.model.specs.Index.{sheet_in, Passes};
ghost use Rattle.page.specs.Page.{Writes, Fills};
ghost use Rattle.join_sheets.specs.Sheets.{joint_of, final_of, head_words, WithinLimits};

use join_alike::Sheets;
use join_rules::put_rules;
use layout::{EDITION, FINAL, STATES, TAGS};
use page::Page;
use parts::{at, set_at};
use sets::{complement, pair_set};

// Writes the words of a sheet with every final bit below its number of states turned.
pub fn put_swapped(sheet: &[u32], out: &mut [u32]) -> usize
    requires { Passes sheet.now }
    ensures { Fills out.old (sheet_words (swapped (sheet_in sheet.now))) out.new result }
{
    let finals = complement(set_at(sheet, FINAL), at(sheet, STATES));
    let mut page = Page::new(out);
    page.copy(&sheet[..FINAL]);
    page.put_set(finals);
    page.copy(&sheet[TAGS..]);
    page.count()
}

// The pairs of a final state of S and a final state of T.
fn joint_finals(sheets: &Sheets) -> u64
    ensures { result ≡ final_of sheets.now }
{
    let s = set_at(sheets.s.words, FINAL);
    let t = set_at(sheets.t.words, FINAL);
    pair_set(sheets.sizes.s, sheets.sizes.t, s, t)
}

// Writes the words of a joint sheet that come before its rules, of which there are `rules`.
fn put_head(sheets: &Sheets, rules: u32, page: &mut Page)
    ensures { Writes page.old (head_words sheets.now rules) page.new }
{
    let states = sheets.sizes.s * sheets.sizes.t;
    page.copy(&[EDITION, states]);
    page.put_set(joint_finals(sheets));
    page.copy(&[at(sheets.s.words, TAGS), rules]);
}

// Writes the words of the joint sheet of two sheets, which has `rules` rules.
pub fn put_joint(sheets: &Sheets, rules: u32, out: &mut [u32]) -> usize
    requires { WithinLimits sheets.now rules }
    ensures { Fills out.old (sheet_words (joint_of sheets.now)) out.new result }
{
    let mut page = Page::new(out);
    put_head(sheets, rules, &mut page);
    put_rules(sheets, &mut page);
    page.count()
}
