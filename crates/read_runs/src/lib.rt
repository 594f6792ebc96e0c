// Runs of bytes: white, names and texts. Each is at the front of the bytes that are given.
#![tactic(auto)]

ghost use Rattle.std.specs.Prelude.{◌≡◌, Bool, ℕ};
ghost use Rattle.model.specs.Lists.{every};
ghost use Rattle.model.specs.Written.{text_byte};
ghost use Rattle.read_runs.specs.Runs.{run, class_within, Tests, trim};

use chars::Class;

// The number of bytes of a text that are tested together.
const BLOCK: usize = 16;

// How many white bytes there are.
pub fn white_length(bytes: &[u8]) -> usize
    ensures { result ≡ run (class_within 0 0) bytes.now }
{
    run_length(bytes, |class| class == Class::White)
}

// How many bytes the name has: those up to the first that no name goes on with.
pub fn name_length(bytes: &[u8]) -> usize
    ensures { result ≡ run (class_within 1 3) bytes.now }
{
    run_length(bytes, |class| class.in_name())
}

// How many bytes the text has, white at its end included.
pub fn text_length(bytes: &[u8]) -> usize
    ensures { result ≡ run text_byte bytes.now }
{
    // Most texts are short, and end before a block does.
    if bytes.len() < BLOCK {
        return text_bytes(bytes);
    }
    let first = text_bytes(&bytes[..BLOCK]);
    // kept: whether the text ends in the first block; no step is chosen by a number
    if first < BLOCK {
        return first;
    }
    let mut known = BLOCK;
    for block in bytes[BLOCK..].chunks_exact(BLOCK) {
        if !text_block(block) {
            break;
        }
        known += BLOCK;
    }
    known + text_bytes(&bytes[known..])
}

// The same, byte by byte.
fn text_bytes(bytes: &[u8]) -> usize
    ensures { result ≡ run text_byte bytes.now }
{
    run_length(bytes, |class| class.in_text())
}

// How many bytes, from the first on, pass a test: by whatever test of bytes the closure computes from their classes.
fn run_length<F: Fn(Class) -> bool>(bytes: &[u8], test: F) -> usize
    requires { F.IsAlwaysCallable test }
    ensures { (t : ℕ → Bool) → Tests (F.post test) t → result ≡ run t bytes.now }
{
    bytes
        .iter()
        .position(|&byte| !test(Class::from(byte)))
        .unwrap_or(bytes.len())
}

// Whether a text may go on with each byte of a block. No byte ends the loop, so that all are tested together.
#[tactic(auto, using(crate::proofs::RunLaws::block_laws))]
fn text_block(block: &[u8]) -> bool
    ensures { result ≡ every text_byte block.now }
{
    let mut all = true;
    for byte in block {
        all = all & chars::in_text(*byte);
    }
    all
}

// The bytes without the white at their end.
pub fn trimmed(bytes: &[u8]) -> &[u8]
    ensures { result.now ≡ trim bytes.now }
{
    match bytes.iter().rposition(|&byte| !chars::is_white(byte)) {
        Some(last) => &bytes[..last + 1],
        None => &[],
    }
}
