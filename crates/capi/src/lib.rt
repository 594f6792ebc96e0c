// The calls for C: slices of bytes and 32-bit words, and answers as numbers. Each call returns the kind of its answer, and hands
// the kind and the two values over in a lent array of 64-bit words. An array that is too short for them gets as many as fit, so a
// caller who lends none loses the values and nothing else.
// kept: C lends each call its buffers one by one, so that they stand side by side in its parameters, and in those of the call behind it
#![tactic(auto, using(capi_lent::proofs::LentLaws::kind_handed))]

ghost use Rattle.std.specs.Prelude.{◌≡◌};
ghost use Rattle.model.specs.Calls.{names_said, read_said, read_tree, tree_said, write_said, write_out, sheet_said, from_file_said};
ghost use Rattle.model.specs.Calls.{from_file_sheet, judge_said, judge_states, swap_said, swap_out, join_said, join_out, formcheck};
ghost use Rattle.answers.specs.Numbers.{kind_of};
ghost use Rattle.capi_lent.specs.Lent.{answer_after};

use answers::Numbers;
use capi_lent::hand_over;

// The number of names of a list, or 8.
#[unsafe(no_mangle)]
pub extern "C" fn formcheck_names(list: &[u8], answer: &mut [u64]) -> u32
    ensures kind { result ≡ kind_of (names_said list.now) }
    ensures answer { answer.new ≡ answer_after answer.old (names_said list.now) }
{
    hand_over(Numbers::from(names::check(list)), answer)
}

// The tree of a text, to the front of `tree`: the number of its nodes, or 8, 1 to 7 or 22.
#[unsafe(no_mangle)]
pub extern "C" fn formcheck_read(
    list: &[u8],
    text: &[u8],
    tree: &mut [u32],
    answer: &mut [u64],
) -> u32
    ensures kind { result ≡ kind_of (read_said list.now text.now tree.old) }
    ensures answer { answer.new ≡ answer_after answer.old
        (read_said list.now text.now tree.old) }
    ensures tree { tree.new ≡ read_tree list.now text.now tree.old }
{
    hand_over(Numbers::from(reader::read(list, text, tree)), answer)
}

// The number of nodes of a tree over `tags` tags, or 10.
#[unsafe(no_mangle)]
pub extern "C" fn formcheck_tree(tree: &[u32], tags: u32, answer: &mut [u64]) -> u32
    ensures kind { result ≡ kind_of (tree_said tags tree.now) }
    ensures answer { answer.new ≡ answer_after answer.old (tree_said tags tree.now) }
{
    hand_over(Numbers::from(tree::check(tree, tags)), answer)
}

// A tree and the text that it was read from, written to the front of `out`: the number of its bytes, or 8, 1, 10, 11, 24 or 22.
#[unsafe(no_mangle)]
pub extern "C" fn formcheck_write(
    list: &[u8],
    text: &[u8],
    tree: &[u32],
    out: &mut [u8],
    answer: &mut [u64],
) -> u32
    ensures kind { result ≡ kind_of (write_said list.now text.now tree.now out.old) }
    ensures answer { answer.new ≡ answer_after answer.old
        (write_said list.now text.now tree.now out.old) }
    ensures out { out.new ≡ write_out list.now text.now tree.now out.old }
{
    hand_over(Numbers::from(writer::write(list, text, tree, out)), answer)
}

// The number of words of a sheet, or 9.
#[unsafe(no_mangle)]
pub extern "C" fn formcheck_sheet(sheet: &[u32], answer: &mut [u64]) -> u32
    ensures kind { result ≡ kind_of (sheet_said sheet.now) }
    ensures answer { answer.new ≡ answer_after answer.old (sheet_said sheet.now) }
{
    hand_over(Numbers::from(sheet::check(sheet)), answer)
}

// A sheet from the bytes of its file, to the front of `sheet`: the number of its words, or 9 or 22.
#[unsafe(no_mangle)]
pub extern "C" fn formcheck_sheet_from_file(
    file: &[u8],
    sheet: &mut [u32],
    answer: &mut [u64],
) -> u32
    ensures kind { result ≡ kind_of (from_file_said file.now sheet.old) }
    ensures answer { answer.new ≡ answer_after answer.old
        (from_file_said file.now sheet.old) }
    ensures sheet { sheet.new ≡ from_file_sheet file.now sheet.old }
{
    hand_over(Numbers::from(sheet::from_file(file, sheet)), answer)
}

// The verdict of a sheet on a tree, with a state word for each node to the front of `states`; or 9, 10, 22 or 23.
#[unsafe(no_mangle)]
pub extern "C" fn formcheck_judge(
    sheet: &[u32],
    tree: &[u32],
    states: &mut [u32],
    answer: &mut [u64],
) -> u32
    ensures kind { result ≡ kind_of (judge_said sheet.now tree.now states.old) }
    ensures answer { answer.new ≡ answer_after answer.old
        (judge_said sheet.now tree.now states.old) }
    ensures states { states.new ≡ judge_states sheet.now tree.now states.old }
{
    hand_over(Numbers::from(judge::judge(sheet, tree, states)), answer)
}

// The swapped sheet, to the front of `out`: the number of its words, or 9 or 22.
#[unsafe(no_mangle)]
pub extern "C" fn formcheck_swap(sheet: &[u32], out: &mut [u32], answer: &mut [u64]) -> u32
    ensures kind { result ≡ kind_of (swap_said sheet.now out.old) }
    ensures answer { answer.new ≡ answer_after answer.old (swap_said sheet.now out.old) }
    ensures out { out.new ≡ swap_out sheet.now out.old }
{
    hand_over(Numbers::from(compose::swap(sheet, out)), answer)
}

// The joint sheet of two, to the front of `out`: the number of its words, or 9, 20, 21 or 22.
#[unsafe(no_mangle)]
pub extern "C" fn formcheck_join(
    first: &[u32],
    second: &[u32],
    out: &mut [u32],
    answer: &mut [u64],
) -> u32
    ensures kind { result ≡ kind_of (join_said first.now second.now out.old) }
    ensures answer { answer.new ≡ answer_after answer.old
        (join_said first.now second.now out.old) }
    ensures out { out.new ≡ join_out first.now second.now out.old }
{
    hand_over(Numbers::from(compose::join(first, second, out)), answer)
}

// What formcheck says of a name list, the bytes of a sheet's file and a form.
#[unsafe(no_mangle)]
pub extern "C" fn formcheck_verdict(
    list: &[u8],
    file: &[u8],
    text: &[u8],
    answer: &mut [u64],
) -> u32
    ensures kind { result ≡ kind_of (formcheck list.now file.now text.now) }
    ensures answer { answer.new ≡ answer_after answer.old
        (formcheck list.now file.now text.now) }
{
    hand_over(Numbers::from(verdict::check(list, file, text)), answer)
}
