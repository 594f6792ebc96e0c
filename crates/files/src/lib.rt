// Files, for programs.
#![tactic(auto)]

ghost use Rattle.io.specs.Counts.{IsPrefixLen};

use std::fs;
use std::io::Read;
use std::rt::Files;

// Reads the front of a file, as much as the buffer holds, and gives its number of bytes. A missing file is empty, and so is
// one whose path isn't UTF-8. No promise can speak of what a file holds.
pub fn front<R: Files>(rt: &R, path: &[u8], buffer: &mut [u8]) -> usize
    ensures { IsPrefixLen result buffer.new }
{
    let Ok(path) = str::from_utf8(path) else {
        return 0;
    };
    match fs::open(rt, path) {
        Ok(mut file) => read_full(&mut file, buffer),
        Err(_) => 0,
    }
}

// Reads until the buffer is full, the input ends or a read fails, and gives the number of bytes read.
fn read_full<F: Read>(file: &mut F, buffer: &mut [u8]) -> usize
    ensures { IsPrefixLen result buffer.new }
{
    // kept: the library's `read_exact` gives no count where the input ends first
    let mut done = 0;
    while done < buffer.len() {
        match file.read(&mut buffer[done..]) {
            Ok(0) | Err(_) => break,
            Ok(n) => done += n,
        }
    }
    done
}
