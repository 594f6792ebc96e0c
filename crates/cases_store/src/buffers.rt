// Bytes of words.
use crate::filled::Filled;

// The most bytes of a text, a list or a file, and the most room of a buffer.
pub const MOST: usize = 66_000;

// The low byte of each word, or none where there are over 66,000.
pub fn low_bytes(words: &[u32]) -> Filled<u8, MOST> {
    let mut bytes = Filled::new();
    let low = words.iter().map(|word| (*word & 0xff) as u8);
    if bytes.extend(low).is_err() {
        bytes.truncate(0);
    }
    bytes
}
