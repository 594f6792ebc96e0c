// Tags by their names.
#![tactic(auto)]

ghost use Rattle.std.specs.Prelude.{◌≡◌, true};
ghost use Rattle.model.specs.Bytes.{is_name, same_bytes};
ghost use Rattle.model.specs.Names.{tag_of};
ghost use Rattle.model.specs.Text.{name_at};
ghost use Rattle.offsets.specs.Lines.{line_count};
ghost use Rattle.tags.specs.Tables.{name_by, tag_or_none, Unchained, TableOf};
ghost use Rattle.read_names.specs.Listing.{Listing};

use chars::Class;
use tags::Table;

// Whether the name at the front of some bytes, which goes on as far as it can, is the one that is given.
pub fn named(bytes: &[u8], name: &[u8]) -> bool
    requires { is_name name.now ≡ true }
    ensures { result ≡ same_bytes name.now (name_at bytes.now) }
{
    if bytes.len() < name.len() {
        return false;
    }
    let (front, rest) = bytes.split_at(name.len());
    if !offsets::same_bytes(name, front) {
        return false;
    }
    match rest.first() {
        Some(after) => !Class::from(*after).in_name(),
        None => true,
    }
}

// Makes a table in which no chain has begun that of a list, with every tag in its chain.
pub fn chain(list: &[u8], table: &mut Table)
    requires { Unchained table.old }
    ensures { TableOf list.now table.new (line_count list.now) }
{
    let count = table.index(list);
    for tag in 1..=count {
        let name = table.name_of(list, tag);
        table.link(tags::bucket(name), tag);
    }
}

// A name list that passes its check, with the table of its tags.
#[derive(Clone, Copy)]
pub struct Names<'a> {
    pub list: &'a [u8],
    pub table: &'a Table,
    pub ghost listing: { Listing list.now table.now },
}

impl<'a> Names<'a> {
    // The name of a tag; no byte where the number is no tag.
    pub fn name_of(&self, tag: usize) -> &'a [u8]
        ensures { result.now ≡ name_by self.now.list.now self.now.table.now tag }
    {
        self.table.name_of(self.list, tag)
    }

    // The tag of a name.
    pub fn find(&self, name: &[u8]) -> Option<usize>
        ensures { result ≡ tag_or_none (tag_of self.now.list.now name.now) }
    {
        self.table.find(self.list, name)
    }
}
