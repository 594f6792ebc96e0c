// The values of a line: the words of items, put on top of the store.
use cases_scan::Unreadable;
use cases_scan::tokens::{Item, Token, Tokens};
use cases_store::buffers::MOST;
use cases_store::filled::Filled;
use cases_store::input_store::InputStore;
use cases_store::store::Part;
use std::rt::Files;

// The most values of a line.
pub const MOST_VALUES: usize = 4;

// The values of a line, where their words are in the store, and the line from its first comment on.
#[derive(Clone, Copy)]
pub struct Values<'a> {
    pub parts: Filled<Part, MOST_VALUES>,
    pub comment: Option<&'a [u8]>,
}

// The values that are read so far, and where the next value, the last item and the open group begin: nowhere, where the store's top is
// nowhere. The item of a group that has none yet begins nowhere, too.
#[derive(Drop)]
struct Reading<'a> {
    values: Values<'a>,
    start: Option<usize>,
    item: Option<usize>,
    group: Option<usize>,
}

impl<'a> Reading<'a> {
    fn new(top: Option<usize>) -> Reading<'a> {
        Reading {
            values: Values {
                parts: Filled::new(),
                comment: None,
            },
            start: top,
            item: top,
            group: None,
        }
    }

    // Ends a value, in which no group is open.
    fn end(&mut self, store: &InputStore) -> Result<(), Unreadable> {
        if self.group.is_some() {
            return Err(Unreadable);
        }
        self.values.parts.push(store.part_from(self.start))?;
        self.start = store.top();
        Ok(())
    }

    // Opens a group, where none is open.
    fn open(&mut self, top: Option<usize>) -> Result<(), Unreadable> {
        if self.group.is_some() {
            return Err(Unreadable);
        }
        self.group = top;
        self.item = None;
        Ok(())
    }

    // Closes the open group, which is the last item then.
    fn close(&mut self) -> Result<(), Unreadable> {
        let group = self.group.take().ok_or(Unreadable)?;
        self.item = Some(group);
        Ok(())
    }

    fn take<R: Files>(
        &mut self,
        evaluator: &mut Evaluator<'_, '_, '_, R>,
        token: Token<'a>,
    ) -> Result<(), Unreadable> {
        match token {
            Token::Item(item) => {
                self.item = evaluator.store.top();
                evaluator.push_item(item)
            }
            Token::Times(n) => evaluator.store.repeat(self.item, n),
            Token::Over(n) => evaluator.store.shift(self.item, (n & 0xff) as u8),
            Token::Open => self.open(evaluator.store.top()),
            Token::Close => self.close(),
            Token::Comma => self.end(&evaluator.store),
            Token::Comment(comment) => {
                self.values.comment = self.values.comment.or(Some(comment));
                Ok(())
            }
        }
    }
}

// The system, whose files are read, and the store, on top of which the words of values are put.
#[derive(Drop)]
pub struct Evaluator<'r, 's, 'a, R> {
    pub rt: &'r R,
    pub store: InputStore<'s, 'a>,
}

impl<R: Files> Evaluator<'_, '_, '_, R> {
    // The words of a named value; or their bytes, where `.bytes` follows its name.
    fn push_named(&mut self, word: &[u8]) -> Result<(), Unreadable> {
        match word.strip_suffix(b".bytes") {
            Some(name) => {
                let part = self.store.find(name)?;
                self.store.push_bytes_of(part)
            }
            None => {
                let part = self.store.find(word)?;
                self.store.push_again(part)
            }
        }
    }

    // The bytes of a file.
    fn push_file(&mut self, path: &[u8]) -> Result<(), Unreadable> {
        let mut bytes = [0; MOST];
        let n = files::front(self.rt, path, &mut bytes);
        self.store.extend(bytes[..n].iter().copied())
    }

    fn push_item(&mut self, item: Item) -> Result<(), Unreadable> {
        match item {
            Item::Number(n) => self.store.push(n),
            Item::Text(text) => self.store.extend(text),
            Item::Name(word) => self.push_named(word),
            Item::File(path) => self.push_file(path),
        }
    }

    // The values that are written.
    pub fn values<'w>(&mut self, written: &'w [u8]) -> Result<Values<'w>, Unreadable> {
        let mut reading = Reading::new(self.store.top());
        for token in Tokens::new(written) {
            reading.take(self, token?)?;
        }
        reading.end(&self.store)?;
        Ok(reading.values)
    }
}
