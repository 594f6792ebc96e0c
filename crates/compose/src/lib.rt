// Swapping and joining sheets.
#![tactic(auto)]

ghost use Rattle.std.specs.Prelude.{◌≡◌, ℕ, ◌+◌, ◌≤◌};
ghost use Rattle.model.specs.Answers.{refusal, said, said_refusal};
ghost use Rattle.model.specs.Calls.{swap_said, swap_out, join_said, join_out};
ghost use Rattle.compose.specs.Joins.{Limits};

use indexed::IndexedSheet;
use join_alike::Sheets;
use join_limits::Tally;
use join_pairs::Sizes;
use join_sheets::{put_joint, put_swapped};
use layout::{INDEX_WORDS, MOST_STATES, MOST_WORDS, TAGS};
use limits::Limit;
use model::Refusal;
use parts::at;

// the place of a refusal of T's words is that of T's check plus this
const SECOND: usize = 20000;

// the words of a sheet before its rules
const HEAD_WORDS: usize = 6;

// The sheet with its final states complemented, to the front of a buffer: the number of its words, or 9, or 22. A refusal
// writes nothing.
// kept: what is read and what is written are lent apart, as the C interface has them
pub fn swap(sheet: &[u32], out: &mut [u32]) -> Result<usize, Refusal>
    ensures answer { said result ≡ swap_said sheet.now out.old }
    ensures out { out.new ≡ swap_out sheet.now out.old }
{
    let n = sheet::check(sheet)?;
    if out.len() < n {
        return Err(Refusal::ShortBuffer(n));
    }
    Ok(put_swapped(sheet, out))
}

// The joint sheet of two sheets with few enough pairs of states: 21 from its place 2 on, or 22.
fn join_few(sheets: &Sheets, out: &mut [u32]) -> Result<usize, Refusal>
    ensures { Limits sheets.now.s.words.now sheets.now.t.words.now out.old (said result) out.new }
{
    let tally = Tally::of_sheets(sheets)?;
    let needed = HEAD_WORDS + tally.words;
    if MOST_WORDS < needed {
        return Err(Refusal::from(Limit::Words));
    }
    if out.len() < needed {
        return Err(Refusal::ShortBuffer(needed));
    }
    Ok(put_joint(sheets, tally.rules as u32, out))
}

// The joint sheet of two sheets: 21 or 22.
fn join_indexed(s: IndexedSheet, t: IndexedSheet, out: &mut [u32]) -> Result<usize, Refusal>
    ensures { Limits s.entry.words.now t.entry.words.now out.old (said result) out.new }
{
    let p = s.states();
    let q = t.states();
    if MOST_STATES < p * q {
        return Err(Refusal::from(Limit::States));
    }
    let sizes = Sizes { s: p, t: q };
    join_few(&Sheets { s, t, sizes }, out)
}

// A refusal of T's words.
fn in_second(bad: Refusal) -> Refusal
    requires { (i : ℕ) × (said_refusal bad ≡ refusal 9 i) × (i ≤ 16384) }
    ensures { (i : ℕ) → said_refusal bad ≡ refusal 9 i → said_refusal result ≡ refusal 9 (i + 20000) }
{
    match bad {
        Refusal::Sheet(i) => Refusal::Sheet(i + SECOND),
        other => other,
    }
}

// The joint sheet of two sheets, to the front of a buffer: the number of its words, or 9, 20, 21 or 22. A refusal writes
// nothing.
pub fn join(first: &[u32], second: &[u32], out: &mut [u32]) -> Result<usize, Refusal>
    ensures answer { said result ≡ join_said first.now second.now out.old }
    ensures out { out.new ≡ join_out first.now second.now out.old }
{
    let mut firsts = [0u32; INDEX_WORDS];
    sheet::index(first, &mut firsts)?;
    let mut seconds = [0u32; INDEX_WORDS];
    sheet::index(second, &mut seconds).map_err(in_second)?;
    let tags = at(second, TAGS);
    if at(first, TAGS) != tags {
        return Err(Refusal::TagCounts(tags as usize));
    }
    let s = IndexedSheet {
        words: first,
        index: &firsts,
    };
    let t = IndexedSheet {
        words: second,
        index: &seconds,
    };
    join_indexed(s, t, out)
}
