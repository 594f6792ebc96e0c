// The words of a sheet's file: 4 bytes each, lowest first.
#![tactic(auto)]

ghost use Rattle.std.specs.Prelude.{◌≡◌, ◌++◌, ◌/◌, min, length, take, drop};
ghost use Rattle.model.specs.Sheet.{file_words};

// The file's first words to the front of a buffer, as many as the file has whole and the buffer holds: how many.
pub fn put_words(bytes: &[u8], words: &mut [u32]) -> usize
    ensures count { result ≡ min (length bytes.now / 4) (length words.old) }
    ensures words { words.new ≡ take result (file_words bytes.now) ++ drop result words.old }
{
    let (fours, _) = bytes.as_chunks::<4>();
    let n = fours.len().min(words.len());
    // kept: tried with `iter_mut().zip(fours)`, and the proof didn't close: in such a loop no invariant can name what the slice holds
    for i in 0..n {
        words[i] = u32::from_le_bytes(fours[i]);
    }
    n
}
