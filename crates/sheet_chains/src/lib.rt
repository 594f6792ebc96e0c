// The index of a sheet, by where its rules begin: the rules with the same key in a chain.
#![tactic(auto)]

ghost use Rattle.std.specs.Prelude.{◌≡◌, length};
ghost use Rattle.model.specs.Answers.{passes, buffer_after};
ghost use Rattle.model.specs.Index.{sheet_in, index_words};
ghost use Rattle.sheet_rules.specs.Places.{Placed};
ghost use Rattle.sheet_chains.specs.Entries.{EntryFits, with_entry};

use layout::{ENTRIES, KEYS, RULES};

// the lowest of the upper sixteen bits of a word
const UPPER: u32 = 65536;

// Puts rule j, which begins at word `begin`, before the first rule with its key.
// kept: no `From` an Entry makes its word, since it can't ask that a place fits sixteen bits, as `EntryFits` does
fn put_entry(sheet: &[u32], begin: usize, j: usize, index: &mut [u32])
    requires { EntryFits index.old j begin }
    ensures { index.new ≡ with_entry sheet.now index.old j begin }
{
    let key = parts::key_of(parts::at(sheet, begin), parts::field(sheet, begin, 1));
    index[ENTRIES + j] = begin as u32 + index[key] * UPPER;
    index[key] = j as u32;
}

// The index of a sheet that passes to the front of a buffer, by where its rules begin. The last rule is put first, so that each chain
// ascends.
pub fn chain(sheet: &[u32], places: &[usize], index: &mut [u32])
    requires places { Placed sheet.now places.now }
    requires room { length index.old ≡ 1092 }
    ensures { index.new ≡ buffer_after index.old (passes (index_words (sheet_in sheet.now))) }
{
    let n = sheet[RULES];
    index[..KEYS].fill(n);
    index[ENTRIES + n as usize] = sheet.len() as u32;
    // kept: tried; with `places[..n].iter().enumerate().rev()` the proof of the invariant Chaining, by the number j, didn't close
    for j in (0..n as usize).rev() {
        put_entry(sheet, places[j], j, index);
    }
}
