// The tags of a name list: a table that finds the name of a tag, and the tag of a name.
#![tactic(auto)]

ghost use Rattle.std.specs.Prelude.{◌≡◌, ◌<◌};
ghost use Rattle.offsets.specs.Lines.{line_count};
ghost use Rattle.tags.specs.Tables.{name_by, bucket, along, found_by, tag_or_none, empty, with_starts, linked};

use offsets::MOST_NAMES;

// The number of chains that tags are in, by their names.
const BUCKETS: usize = 64;

// The chain that a name's tag is in. Only the first byte and the last two are looked at: names of one list mostly differ in them.
pub fn bucket(name: &[u8]) -> usize
    ensures is { result ≡ bucket name.now }
    ensures within { result < 64 }
{
    let n = name.len();
    if n == 0 {
        return 0;
    }
    let first = usize::from(name[0]);
    let before_last = usize::from(name[n.saturating_sub(2)]);
    let last = usize::from(name[n - 1]);
    (first + 9 * before_last + last) % BUCKETS
}

// Where each line of a list begins, and where the last of them ends; the first tag of each chain; and the tag after each tag in its
// chain.
// kept: 0 ends a chain and is below each tag, so that by the one test tag <= next each walk ends; an Option would be unwrapped first
#[derive(Clone, Copy)]
pub struct Table {
    pub starts: [usize; MOST_NAMES + 1],
    pub firsts: [usize; BUCKETS],
    pub nexts: [usize; MOST_NAMES + 1],
}

impl Table {
    // A table without lines and tags. It is filled where it lies, so that no table is copied.
    pub fn new() -> Table
        ensures { result ≡ empty }
    {
        Table {
            starts: [0; MOST_NAMES + 1],
            firsts: [0; BUCKETS],
            nexts: [0; MOST_NAMES + 1],
        }
    }

    // Notes where each line of a list begins, and where the last of them ends. The number of the lines, counted up to 64.
    pub fn index(&mut self, list: &[u8]) -> usize
        ensures lines { result ≡ line_count list.now }
        ensures table { self.new ≡ with_starts list.now self.old }
    {
        offsets::index(list, &mut self.starts)
    }

    // The name of a tag, by the offsets that `offsets::index` wrote; no byte where the number is no tag. Any other offsets bound
    // parts of the list too.
    pub fn name_of<'a>(&self, list: &'a [u8], tag: usize) -> &'a [u8]
        ensures { result.now ≡ name_by list.now self.now tag }
    {
        if (tag == 0) | (MOST_NAMES < tag) {
            return &[];
        }
        offsets::bare(list, self.starts[tag - 1], self.starts[tag])
    }

    // The tag of a name, by its chain.
    pub fn find(&self, list: &[u8], name: &[u8]) -> Option<usize>
        ensures { result ≡ tag_or_none (found_by list.now self.now name.now) }
    {
        self.find_chained(list, self.firsts[bucket(name)], name)
    }

    // The tag of a name in a chain that begins with tag `first`. A chain goes on to a smaller tag.
    pub fn find_chained(&self, list: &[u8], first: usize, name: &[u8]) -> Option<usize>
        ensures { result ≡ tag_or_none (along list.now self.now name.now 64 first) }
    {
        if MOST_NAMES < first {
            return None;
        }
        let mut tag = first;
        // kept: the one walk along a chain of tags; an iterator of its own would take three times these lines, and serve this loop alone
        while tag != 0 {
            if offsets::same_bytes(self.name_of(list, tag), name) {
                return Some(tag);
            }
            let next = self.nexts[tag];
            if tag <= next {
                return None;
            }
            tag = next;
        }
        None
    }

    // Puts a tag before the first of a chain; nothing where the tag is over 64, or there is no such chain. Tag 0, which is no tag,
    // leaves the chain empty.
    pub fn link(&mut self, chain: usize, tag: usize)
        ensures { self.new ≡ linked self.old chain tag }
    {
        if (BUCKETS <= chain) | (MOST_NAMES < tag) {
            return;
        }
        self.nexts[tag] = self.firsts[chain];
        self.firsts[chain] = tag;
    }
}
