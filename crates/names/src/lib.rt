// The check of a name list: refusal 8.
#![tactic(auto)]

ghost use Rattle.std.specs.Prelude.{◌≡◌, cond, ◌+◌, ◌<◌};
ghost use Rattle.model.specs.Answers.{said};
ghost use Rattle.model.specs.Calls.{names_said};
ghost use Rattle.model.specs.Names.{lines, good_line};
ghost use Rattle.offsets.specs.Lines.{line, line_count};
ghost use Rattle.tags.specs.Tables.{TableOf};

use model::Refusal;
use name_line::named_line;
use tags::Table;

// The number of names, or the first line that is not in order.
pub fn check(list: &[u8]) -> Result<usize, Refusal>
    ensures { said result ≡ names_said list.now }
{
    if list.is_empty() {
        return Err(Refusal::NameList(0));
    }
    let mut table = Table::new();
    let count = table.index(list);
    for good in 0..count {
        if !enter(list, &mut table, good) {
            return Err(Refusal::NameList(table.starts[good]));
        }
    }
    // Bytes past the last line that is indexed are a 65th line.
    let end = table.starts[count];
    if end < list.len() {
        return Err(Refusal::NameList(end));
    }
    Ok(count)
}

// Whether line k is a name of at most 24 bytes and a line feed, and no line before it holds the name. If so, its tag becomes the
// first of its chain; only that chain can hold the name.
// kept: the table is looked up by line k, by tag and by chain, so a struct of the table and k would be taken apart again right here
fn enter(list: &[u8], table: &mut Table, k: usize) -> bool
    requires { (k < line_count list.now) × TableOf list.now table.old k }
    ensures good { result ≡ good_line (lines list.now) k (line list.now k) }
    ensures made { TableOf list.now table.new (cond result (k + 1) k) }
{
    let tag = k + 1;
    let name = table.name_of(list, tag);
    if !named_line(&list[table.starts[k]..table.starts[tag]]) {
        return false;
    }
    let chain = tags::bucket(name);
    let same = table.find_chained(list, table.firsts[chain], name);
    if same.is_some() {
        return false;
    }
    table.link(chain, tag);
    true
}
