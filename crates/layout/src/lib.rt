// Document 01's numbers that more than one crate needs: the words of trees and sheets, and their limits.
#![tactic(auto)]

// ---- texts

pub const MOST_BYTES: usize = 65535;

// ---- trees: each node is four words, the first of them its symbol

pub const NODE_WORDS: usize = 4;

pub const MOST_NODES: usize = 4096;

// how deep elements lie at most, the root at depth 1
pub const MOST_LEVELS: u32 = 32;

// ---- sheets: where the words stand that come before the rules

pub const STATES: usize = 1;

pub const FINAL: usize = 2;

pub const TAGS: usize = 4;

pub const RULES: usize = 5;

// the first word of every sheet
pub const EDITION: u32 = 1;

pub const MOST_STATES: u32 = 64;

pub const MOST_TAGS: u32 = 64;

pub const MOST_RULES: u32 = 1024;

pub const MOST_WORDS: usize = 16384;

// ---- rules: their maps. Bit 0 is a text kind, bit 1 a tag, bit 2 an inner state, bit 3 an order part, bit 4 a count part, bit 5 the
// target.

pub const TEXT_RULE: u32 = 33;

pub const TAG_RULE: u32 = 38;

pub const CONTENT_RULE: u32 = 32;

pub const ORDER_RULE: u32 = 40;

pub const COUNT_RULE: u32 = 48;

pub const ORDER_COUNT_RULE: u32 = 56;

// ---- order parts

pub const MOST_POSITIONS: u32 = 64;

pub const MOST_ARCS: u32 = 1024;

// ---- count parts: the kinds of steps

// kept: a sheet's words have these numbers, and each reader matches on the word; an enum's conversion would tell each of them once more
pub const AT_MOST: u32 = 1;

pub const REMAINDER: u32 = 2;

pub const NOT: u32 = 3;

pub const AND: u32 = 4;

pub const OR: u32 = 5;

pub const MOST_STEPS: u32 = 32;

// ---- the index of a sheet: for each key of a rule its first rule, then an entry for each rule, and one after the last

pub const KEYS: usize = 67;

// where the entries begin
pub const ENTRIES: usize = KEYS;

pub const INDEX_WORDS: usize = 1092;
