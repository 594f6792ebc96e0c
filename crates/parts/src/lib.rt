// The parts of a sheet in its words: how long each is, what a rule's map says, and the entries of a sheet's index. Every function is total.
#![tactic(auto)]

ghost use Rattle.std.specs.Prelude.{◌≡◌, ◌+◌, ◌*◌, ◌/◌, ◌%◌, ◌^◌, ◌<◌, min, get_or};
ghost use Rattle.model.specs.Sheet.{W};
ghost use Rattle.model.specs.Spans.{ordered, counted};
ghost use Rattle.parts.specs.Lengths.{order_length, sum_length, step_length, key_by};

use layout::{
    COUNT_RULE, MOST_TAGS, NOT, ORDER_COUNT_RULE, ORDER_RULE, REMAINDER, TAG_RULE, TEXT_RULE,
};

// the key of content
pub const CONTENT_KEY: usize = 0;

// the keys of texts are their kinds, and those of tags are after them
pub const TEXT_KINDS: u32 = 2;

// the sixteen bits of a word of an index that tell where a rule begins
const LOWER: u32 = 0xFFFF;

// ---- words found by their index. What is public is total, so a word past the end is read as 0. A sheet that passed its check has all
// the words that are read of it.

// The word at index i, 0 past the end.
// kept: total; of a sheet that passed no word is missing, so that with an Option each reader would have an arm that is never taken
pub fn at(words: &[u32], i: usize) -> u32
    ensures { result ≡ get_or words.now i 0 }
{
    words.get(i).copied().unwrap_or(0)
}

// The word k after index a, 0 past the end.
// kept: total, as `at`; a slice from the index on would have to be cut for each word, with an answer where it begins past the end
pub fn field(words: &[u32], a: usize, k: usize) -> u32
    ensures { result ≡ get_or words.now (a + k) 0 }
{
    at(words, a.saturating_add(k))
}

// The set whose low and high words are at a and after it.
// kept: total, as `at`, and its words are found by the same index
pub fn set_at(words: &[u32], a: usize) -> u64
    ensures { result ≡ get_or words.now a 0 + get_or words.now (a + 1) 0 * W }
{
    bits::of_words(at(words, a), field(words, a, 1))
}

// The length of the order part at a: number of positions, two words of accepting positions, number of arcs, the arcs.
// kept: total, as `at`; how far the part goes is what is asked, so there is no slice of it yet
#[tactic(auto, unfolding(crate::specs::Lengths::order_length))]
pub fn order_length(words: &[u32], a: usize) -> usize
    ensures { result ≡ order_length words.now a }
{
    4 + field(words, a, 3) as usize
}

// The length of the sum at a: two words of marks, and a coefficient for each mark.
// kept: total, as `at`, and the part's end is asked, as by `order_length`
#[tactic(auto, unfolding(crate::specs::Lengths::sum_length))]
pub fn sum_length(words: &[u32], a: usize) -> usize
    ensures { result ≡ sum_length (get_or words.now a 0) (get_or words.now (a + 1) 0) }
{
    2 + bits::size(set_at(words, a)) as usize
}

// The length of the step at a, by its kind: a sum and as many words more as the number of its kind, or one or two step numbers.
// kept: total, as `at`, and the part's end is asked, as by `order_length`
#[tactic(auto, unfolding(crate::specs::Lengths::step_length, crate::specs::Lengths::sum_length))]
pub fn step_length(words: &[u32], a: usize) -> usize
    ensures { result ≡ step_length words.now a }
{
    let kind = at(words, a);
    // kept: a length for each kind by document 01's numbers, of which one is added; no step is run
    match kind {
        ..=REMAINDER => {
            let marks = bits::of_words(field(words, a, 1), field(words, a, 2));
            3 + bits::size(marks) as usize + kind as usize
        }
        NOT => 2,
        _ => 3,
    }
}

// Whether rules of this map have an order part.
pub fn has_order(map: u32) -> bool
    ensures { result ≡ ordered map }
{
    matches!(map, ORDER_RULE | ORDER_COUNT_RULE)
}

// Whether rules of this map have a count part.
pub fn has_count(map: u32) -> bool
    ensures { result ≡ counted map }
{
    matches!(map, COUNT_RULE | ORDER_COUNT_RULE)
}

// The key of a rule by its first two words: content 0, a text its kind, a tag 2 more than its number.
#[tactic(auto, unfolding(crate::specs::Lengths::key_by))]
pub fn key_of(map: u32, second: u32) -> usize
    ensures key { result ≡ key_by map second }
    ensures few { result < 67 }
{
    // kept: a key for each map by document 01's numbers; no step is run
    match map {
        TEXT_RULE => second.min(TEXT_KINDS) as usize,
        TAG_RULE => (TEXT_KINDS + second.min(MOST_TAGS)) as usize,
        _ => CONTENT_KEY,
    }
}

// Where a rule begins, and the number of the next rule with its key.
#[derive(Clone, Copy)]
pub struct Entry {
    pub begin: usize,
    pub next: usize,
}

impl From<u32> for Entry {
    ghost from_gives = { λ word entry. (entry.begin ≡ word % 2 ^ 16) × (entry.next ≡ word / 2 ^ 16) };

    // A word of a sheet's index taken apart.
    fn from(word: u32) -> Entry {
        Entry {
            begin: (word & LOWER) as usize,
            next: (word >> 16) as usize,
        }
    }
}
