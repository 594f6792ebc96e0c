// The lines of a list by their offsets: where each begins, and the name on it.
#![tactic(auto)]

ghost use Rattle.std.specs.Prelude.{◌≡◌, ◌+◌, ◌-◌, ◌≤◌, length, take, drop, set};
ghost use Rattle.std.proofs.lemmas.List.Edits.{sets};
ghost use Rattle.model.specs.Bytes.{same_bytes};
ghost use Rattle.model.specs.Names.{bare};
ghost use Rattle.offsets.specs.Lines.{line, line_count, line_starts};

const LINE_FEED: u8 = b'\n';

// The most names a list may have.
pub const MOST_NAMES: usize = 64;

// The number of lines, counted up to 64. The offsets where they begin, and where the last of them ends, are written to the front
// of `starts`, as far as that goes: `sets l i vs` is l with vs from place i on.
pub fn index(list: &[u8], starts: &mut [usize]) -> usize
    ensures lines { result ≡ line_count list.now }
    ensures starts { starts.new ≡ sets starts.old 0 (line_starts list.now) }
{
    let mut at = 0;
    for k in 0..MOST_NAMES {
        put(starts, k, at);
        if list.len() <= at {
            return k;
        }
        at += line_length(&list[at..]);
    }
    put(starts, MOST_NAMES, at);
    MOST_NAMES
}

// Stores an offset at place k, where there is such a place.
// kept: tried with `get_mut(k)`, after which no fact tells what the slice holds, so the proof didn't close
fn put(starts: &mut [usize], k: usize, at: usize)
    ensures { starts.new ≡ set starts.old k at }
{
    if k < starts.len() {
        starts[k] = at;
    }
}

// The length of the first line, with its line feed.
fn line_length(list: &[u8]) -> usize
    ensures { result ≡ length (line list.now 0) }
{
    match list.iter().position(|&byte| byte == LINE_FEED) {
        Some(i) => i + 1,
        None => list.len(),
    }
}

// The part from `at` to `end`, or to the list's end, without its last byte.
// kept: total, as all that is public: a table's offsets may be those of another list, and a slice from `at` to `end` need not be there
pub fn bare<'a>(list: &'a [u8], at: usize, end: usize) -> &'a [u8]
    ensures { result.now ≡ bare (take (end - at) (drop at list.now)) }
{
    let stop = end.min(list.len());
    if stop <= at {
        return &[];
    }
    &list[at..stop - 1]
}

// Whether two names are the same.
pub fn same_bytes(a: &[u8], b: &[u8]) -> bool
    ensures { result ≡ same_bytes a.now b.now }
{
    if a.len() != b.len() {
        return false;
    }
    // kept: tried with `==`: a call for each name, 5 % more instructions of a read; read and judge together have none left to their 1/8
    for i in 0..a.len() {
        if a[i] != b[i] {
            return false;
        }
    }
    true
}
