// What formcheck says of a name list, a sheet's file and a form, and the line that it prints.
#![tactic(auto)]

ghost use Rattle.std.specs.Prelude.{◌≡◌, List, ◌++◌, ℕ, length, drop};
ghost use Rattle.io.specs.Counts.{IsPrefixLen};
ghost use Rattle.model.specs.Answers.{said_judgement, passes};
ghost use Rattle.model.specs.Sheet.{file_words};
ghost use Rattle.model.specs.Names.{names_of};
ghost use Rattle.model.specs.Calls.{formcheck};
ghost use Rattle.model.specs.Line.{formcheck_line};
ghost use Rattle.model.specs.Index.{Passes};

use layout::{MOST_NODES, MOST_WORDS, NODE_WORDS, TAGS};
use model::{Refusal, Verdict};
pub use verdict_sizes::Buffers;

// The most bytes of a line.
pub const LINE_BYTES: usize = line::MOST_BYTES;

// The checks from the text on, by a list of `names` names and a sheet that both pass: text, 20, run. A tree that was read has
// at most MOST_NODES nodes and keeps its shape, so neither 22 nor 10 can come up.
// kept: the list and the text are C's, lent one by one; the sheet is a local array, and its fact was told by the call before
fn judge_form(list: &[u8], names: usize, sheet: &[u32], text: &[u8]) -> Result<Verdict, Refusal>
    requires names { names_of list.now ≡ passes names }
    requires sheet { Passes sheet.now }
    ensures { (file : List ℕ) → file_words file ≡ sheet.now →
        said_judgement result ≡ formcheck list.now file text.now }
{
    let mut tree = [0u32; MOST_NODES * NODE_WORDS];
    let mut states = [0u32; MOST_NODES];
    let n = reader::read(list, text, &mut tree)?;
    let tags = sheet[TAGS] as usize;
    if names != tags {
        return Err(Refusal::TagCounts(tags));
    }
    judge::judge(sheet, &tree[..n * NODE_WORDS], &mut states)
}

// The verdict on a form, by a name list and the bytes of a sheet's file; or the first refusal of 8, 9, the text's (1 to 7),
// 20 and 23. The sheet, the tree and the states stand in local arrays that are large enough for all that passes.
// kept: C lends the three files one by one
pub fn check(list: &[u8], file: &[u8], text: &[u8]) -> Result<Verdict, Refusal>
    ensures { said_judgement result ≡ formcheck list.now file.now text.now }
{
    let names = names::check(list)?;
    let mut sheet = [0u32; MOST_WORDS];
    let n = sheet::from_file(file, &mut sheet)?;
    judge_form(list, names, &sheet[..n], text)
}

// The line that formcheck prints of a name list, the bytes of a sheet's file and a form goes to the front of `out`; its number of bytes.
// kept: the files are those of `check`
pub fn line(list: &[u8], file: &[u8], text: &[u8], out: &mut [u8; LINE_BYTES]) -> usize
    ensures bytes { result ≡ length (formcheck_line list.now file.now text.now) }
    ensures out { out.new ≡ formcheck_line list.now file.now text.now
        ++ drop result out.old }
    ensures within { IsPrefixLen result out.new }
{
    line::of_judgement(check(list, file, text), out)
}
