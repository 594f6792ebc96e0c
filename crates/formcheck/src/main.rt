// formcheck: reads names.txt, sheet.bin and form.txt in the folder that it is run in, and prints one line: the verdict with its
// state or node and its looks, or the error with its number and place. What it prints is the proved line of the bytes that it read.
#![tactic(auto)]

const STDOUT: i32 = 1;

fn main(rt: HostRuntime) {
    let mut read = verdict::Buffers::new();
    let names = files::front(&rt, b"names.txt", &mut read.names);
    let sheet = files::front(&rt, b"sheet.bin", &mut read.sheet);
    let form = files::front(&rt, b"form.txt", &mut read.form);
    let mut out = [0u8; verdict::LINE_BYTES];
    let n = verdict::line(
        &read.names[..names],
        &read.sheet[..sheet],
        &read.form[..form],
        &mut out,
    );
    io::write_all(STDOUT, &out[..n]);
}
