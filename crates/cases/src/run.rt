// The calls, on the values of a case.
use cases_print::{answer, judgement, text};
use cases_scan::Unreadable;
use cases_store::buffers::{MOST, low_bytes};
use cases_store::filled::Filled;
use cases_store::input_store::InputStore;
use cases_store::store::Part;
use cases_values::calls::{Buffer, Call};
use cases_values::contents::Case;
use cases_values::values::MOST_VALUES;

// ---- calls on bytes, which are the low ones of words

// Its answer counts nodes, of four words each.
fn read(list: &[u32], text: &[u32], out: &mut [u32]) -> usize {
    let list = low_bytes(list);
    let text = low_bytes(text);
    answer(reader::read(list.as_slice(), text.as_slice(), out)).saturating_mul(4)
}

// Writes to as many bytes as `out` has words, prints them, and puts each into a word.
fn write(list: &[u32], source: &[u32], tree: &[u32], out: &mut [u32]) -> usize {
    let list = low_bytes(list);
    let source = low_bytes(source);
    let mut bytes = [b'.'; MOST];
    let room = out.len().min(MOST);
    let lent = &mut bytes[..room];
    let count = answer(writer::write(list.as_slice(), source.as_slice(), tree, lent));
    text(lent);
    for (word, byte) in out.iter_mut().zip(lent) {
        *word = u32::from(*byte);
    }
    count
}

fn judge_form(list: &[u32], file: &[u32], text: &[u32]) {
    let list = low_bytes(list);
    let file = low_bytes(file);
    let text = low_bytes(text);
    judgement(verdict::check(list.as_slice(), file.as_slice(), text.as_slice()));
}

// ---- calls

// Where the room of a case stands, as the first word: in the call's last value, if it is lent a buffer. A tree check is lent one that isn't
// printed, with a room from where its first value begins up to where the other ends.
fn room_of(case: &Case) -> Part {
    match (case.call, case.values.parts.as_slice()) {
        (Call::Tree, [tags, tree]) => Part {
            from: tags.from,
            to: tree.to,
        },
        (call, [.., room]) if call.buffer().is_some() => *room,
        _ => Part::default(),
    }
}

// A call, the words of its values, and how many words or bytes of a buffer it is lent.
#[derive(Drop)]
pub(crate) struct Invocation<'s> {
    call: Call,
    values: Filled<&'s [u32], MOST_VALUES>,
    room: usize,
}

impl<'s> Invocation<'s> {
    pub(crate) fn new(case: &Case, store: &'s InputStore) -> Result<Invocation<'s>, Unreadable> {
        let mut values = Filled::new();
        for part in case.values.parts.as_slice() {
            values.push(store.words(*part))?;
        }
        let room = store.words(room_of(case)).first().copied();
        Ok(Invocation {
            call: case.call,
            values,
            room: room.unwrap_or_default() as usize,
        })
    }

    // Makes the call, prints its answer, and gives how many words of the lent buffer that counts.
    fn answer(&self, out: &mut [u32]) -> usize {
        // kept: a match over the calls' names, since each takes other values
        match (self.call, self.values.as_slice()) {
            (Call::Names, [list]) => answer(names::check(low_bytes(list).as_slice())),
            (Call::Read, [list, text, _]) => read(list, text, out),
            (Call::Write, [list, source, tree, _]) => write(list, source, tree, out),
            (Call::SheetFromFile, [file, _]) => {
                answer(sheet::from_file(low_bytes(file).as_slice(), out))
            }
            (Call::Verdict, [list, file, text]) => {
                judge_form(list, file, text);
                0
            }
            (Call::Tree, [tags, tree]) => {
                answer(tree::check(tree, tags.first().copied().unwrap_or_default()))
            }
            (Call::Sheet, [sheet]) => answer(sheet::check(sheet)),
            (Call::Judge, [sheet, tree, _]) => {
                judgement(judge::judge(sheet, tree, out));
                0
            }
            (Call::Swap, [sheet, _]) => answer(compose::swap(sheet, out)),
            (Call::Join, [first, second, _]) => answer(compose::join(first, second, out)),
            _ => 0,
        }
    }

    // Makes the call, and prints its answer and the lent buffer; a buffer of bytes is printed where they are at hand. What the answer
    // counts of the lent buffer.
    pub(crate) fn run<'b>(&self, out: &'b mut [u32]) -> &'b [u32] {
        let room = self.room.min(out.len());
        let lent = &mut out[..room];
        let kept = self.answer(lent);
        if let Some(Buffer::Words) = self.call.buffer() {
            cases_print::words(lent);
        }
        lent.get(..kept).unwrap_or_default()
    }
}
