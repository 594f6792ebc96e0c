// Nodes, each packed into one word of four fields: symbol, size, text start, text length.
#![tactic(auto)]

ghost use Rattle.std.specs.Prelude.{◌++◌, ◌≡◌, ◌*◌, ◌≤◌, ◌<◌, length, drop};
ghost use Rattle.read_nodes.specs.Packed.{packed, all_unpacked};

use layout::{MOST_NODES, NODE_WORDS};

// The number of values of a field of a node's word.
pub const FIELD: u64 = 65536;

// A word for each node.
// kept: a type of a node's word would have a method for each of its fields, each used in one place
pub type Words = [u64; MOST_NODES];

// A node's word.
#[tactic(auto, unfolding(crate::specs::Packed::packed))]
pub fn packed(symbol: u64, size: u64, start: u64, bytes: u64) -> u64
    requires { (symbol < 65536) × (size < 65536) × (start < 65536) × (bytes < 65536) }
    ensures { result ≡ packed symbol size start bytes }
{
    symbol + FIELD * (size + FIELD * (start + FIELD * bytes))
}

// Nodes, as four words each, at the front of the tree.
pub fn unpack(nodes: &[u64], tree: &mut [u32])
    requires { 4 * length nodes.now ≤ length tree.old }
    ensures { tree.new ≡ all_unpacked nodes.now ++ drop (4 * length nodes.now) tree.old }
{
    // kept: tried with `chunks_exact_mut(NODE_WORDS).zip(nodes)`, and the proof didn't close: no invariant can name what the tree holds
    for k in 0..nodes.len() {
        let word = nodes[k];
        let at = NODE_WORDS * k;
        tree[at] = (word % FIELD) as u32;
        tree[at + 1] = (word / FIELD % FIELD) as u32;
        tree[at + 2] = (word / FIELD / FIELD % FIELD) as u32;
        tree[at + 3] = (word / FIELD / FIELD / FIELD) as u32;
    }
}
