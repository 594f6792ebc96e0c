// The sheet check, and a sheet from the bytes of a file: refusal 9 with its place.
#![tactic(auto)]

ghost use Rattle.std.specs.Prelude.{◌≡◌};
ghost use Rattle.model.specs.Answers.{said};
ghost use Rattle.model.specs.Calls.{sheet_said, from_file_said, from_file_sheet};
ghost use Rattle.model.specs.Index.{index_after};

use layout::{INDEX_WORDS, MOST_RULES, MOST_WORDS};
use model::Refusal;
use sheet_chains::chain;
use sheet_check::check_noting;
use sheet_file::put_words;

const WORD_BYTES: usize = 4;

// The number of a sheet's words, or 9 with the place of the first bad one.
pub fn check(sheet: &[u32]) -> Result<usize, Refusal>
    ensures { said result ≡ sheet_said sheet.now }
{
    // A lent slice, here empty, takes the places: a proof learns nothing of what a closure notes.
    check_noting(sheet, &mut [])
}

// The check of a sheet, which leaves the sheet's index: for each key its first rule, then for each rule where it begins and the next
// rule with its key, and at the end where the last rule ends. A refusal leaves the array as it was.
pub fn index(sheet: &[u32], index: &mut [u32; INDEX_WORDS]) -> Result<usize, Refusal>
    ensures answer { said result ≡ sheet_said sheet.now }
    ensures index { index.new ≡ index_after index.old sheet.now }
{
    let mut places = [0usize; MOST_RULES as usize];
    let n = check_noting(sheet, &mut places)?;
    chain(sheet, &places, index);
    Ok(n)
}

// A sheet from the bytes of a file, to the front of a buffer: the number of its words, or 9, or 22. A refusal writes nothing.
pub fn from_file(bytes: &[u8], sheet: &mut [u32]) -> Result<usize, Refusal>
    ensures answer { said result ≡ from_file_said bytes.now sheet.old }
    ensures buffer { sheet.new ≡ from_file_sheet bytes.now sheet.old }
{
    let mut words = [0u32; MOST_WORDS];
    let n = put_words(bytes, &mut words);
    check(&words[..n])?;
    // Bytes after a whole sheet: 1 to 3 over, a word after the last rule, or one beyond the most words.
    if n * WORD_BYTES != bytes.len() {
        return Err(Refusal::Sheet(n));
    }
    if sheet.len() < n {
        return Err(Refusal::ShortBuffer(n));
    }
    Ok(put_words(bytes, sheet))
}
