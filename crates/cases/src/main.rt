// Runs the calls on the cases of standard input, and prints each with its answer. The head of the file `stdin` says how a case is
// written and what is printed.
#![tactic(auto)]

mod lines;
mod run;

const STDIN: i32 = 0;

const INPUT_BYTES: usize = 98_304;

fn main(rt: HostRuntime) {
    let mut text = [0; INPUT_BYTES];
    let n = io::read_full(STDIN, &mut text);
    lines::all(&rt, &text[..n]);
}
