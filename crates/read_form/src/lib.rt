// A form, read token by token: one element, with white around it.
#![tactic(auto)]

ghost use Rattle.std.specs.Prelude.{◌≡◌, ◌≤◌, length};
ghost use Rattle.model.specs.Answers.{passes};
ghost use Rattle.model.specs.Names.{names_of};
ghost use Rattle.offsets.specs.Lines.{line_count};
ghost use Rattle.read_pass.specs.Reading.{Scanned};

use chars::Class;
use layout::MOST_NODES;
use model::Refusal;
use read_names::{Names, chain, named};
use read_nodes::{FIELD, Words, packed};
use read_runs::{name_length, text_length, trimmed, white_length};
use read_scan::{Scan, Seen};
use symbols::of_kind;
use tags::Table;

// The most elements that lie one in another.
const MOST_DEPTH: usize = layout::MOST_LEVELS as usize;

// The number of nodes, whose words go to `words`; or the first of the refusals 2 to 7.
// kept: list and text come apart from the C interface; from here on they travel in a Reader
pub fn scan_form(list: &[u8], text: &[u8], words: &mut Words) -> Result<usize, Refusal>
    requires list_value { names_of list.now ≡ passes (line_count list.now) }
    requires text_len_bound { (length text.now ≤ 65535) × (length words.old ≡ 4096) }
    ensures { Scanned list.now text.now words.new result }
{
    let mut table = Table::new();
    chain(list, &mut table);
    let names = Names {
        list,
        table: &table,
    };
    let mut reading = Reader::new(names, text, words);
    reading.form()
}

// A form that is read: the names that it may use, its text, the words of its nodes, and how far it is read.
#[derive(Drop)]
pub struct Reader<'a> {
    pub names: Names<'a>,
    pub text: &'a [u8],
    pub words: &'a mut Words,
    pub scan: Scan,
}

impl<'a> Reader<'a> {
    ghost use Rattle.std.specs.Prelude.{◌+◌, ◌<◌, drop};
    ghost use Rattle.chars.specs.Classes.{number_seen};
    ghost use Rattle.read_scan.specs.Scans.{scan_at};
    ghost use Rattle.model.specs.Text.{before, blank, start_gap, end_open};
    ghost use Rattle.read_runs.specs.Runs.{run, class_within, first_class};
    ghost use Rattle.read_pass.specs.Reading.{Solid};
    ghost use Rattle.read_form.specs.Readings.{ReadTo, ReadInside, AtStartTag, AtToken, Behind, Begins, Moves, Ends, Closes};

    // A reader that has read nothing.
    fn new(names: Names<'a>, text: &'a [u8], words: &'a mut Words) -> Reader<'a>
        ensures names { result.names ≡ names.entry }
        ensures text { result.text ≡ text.entry }
        ensures same { result.words.ghost_name ≡ words.entry.ghost_name }
        ensures words { result.words.now ≡ words.old }
        ensures scan { result.scan ≡ scan_at 0 }
    {
        let scan = Scan {
            at: 0,
            top: 0,
            depth: 0,
            nodes: 0,
        };
        Reader {
            names,
            text,
            words,
            scan,
        }
    }

    // The whole form. The root's start tag is a token like any other, so that only one place calls for start tags, and they are
    // compiled into the loop.
    fn form(&mut self) -> Result<usize, Refusal>
        requires { ReadTo before self.old }
        ensures { Ends self.old self.new result }
    {
        self.root()?;
        loop {
            self.token()?;
            if self.scan.depth == 0 {
                return self.ending();
            }
        }
    }

    // White, up to the root's start tag.
    fn root(&mut self) -> Result<(), Refusal>
        requires { ReadTo before self.old }
        ensures { Begins self.old self.new result }
    {
        let seen = self.past_white();
        if seen.class != Some(Class::Less) {
            return Err(seen.stopped());
        }
        let next = self.look(seen.at + 1);
        if next.class != Some(Class::Letter) {
            return Err(next.stopped());
        }
        self.scan.at = seen.at;
        Ok(())
    }

    // The root's start tag, or one token of content: white and a tag, or white and a text.
    fn token(&mut self) -> Result<(), Refusal>
        requires { AtToken self.old }
        ensures { Moves self.old self.new result }
    {
        let seen = self.past_white();
        // kept: these tests read what stands ahead, and are the grammar of a token; nothing is kept that says which step is to run
        if seen.class == Some(Class::Less) {
            let next = self.look(seen.at + 1);
            if next.class == Some(Class::Letter) {
                self.scan.at = seen.at;
                return self.start_tag();
            }
            if next.class == Some(Class::Slash) {
                self.scan.at = seen.at + 2;
                return self.end_tag();
            }
            return Err(next.stopped());
        }
        let Some(first) = seen.class else {
            return Err(seen.stopped());
        };
        if !first.in_text() {
            return Err(seen.stopped());
        }
        self.scan.at = seen.at;
        self.text_node()
    }

    // Behind the root, white up to the end of the text.
    fn ending(&self) -> Result<usize, Refusal>
        requires { Behind self.now }
        ensures { Scanned self.now.names.list.now self.now.text.now self.now.words.now result }
    {
        let seen = self.past_white();
        if seen.at < self.text.len() {
            return Err(seen.stopped());
        }
        Ok(self.scan.nodes)
    }

    // ---- what stands ahead

    // The bytes from an offset on.
    fn rest(&self, at: usize) -> &'a [u8]
        requires { at ≤ length self.now.text.now }
        ensures { result.now ≡ drop at self.now.text.now }
    {
        let (_, rest) = self.text.split_at(at);
        rest
    }

    // What stands at an offset.
    fn look(&self, at: usize) -> Seen
        ensures at { result.at ≡ at }
        ensures class { number_seen result.class ≡ first_class (drop at self.now.text.now) }
    {
        let Some(byte) = self.text.get(at) else {
            return Seen { at, class: None };
        };
        let class = Some(Class::from(*byte));
        Seen { at, class }
    }

    // What stands behind the white from here on. Mostly there is none, and the class of one byte tells it.
    fn past_white(&self) -> Seen
        requires { self.now.scan.at ≤ length self.now.text.now }
        ensures is { result.at ≡ self.now.scan.at + run (class_within 0 0) (drop self.now.scan.at self.now.text.now) }
        ensures within { (self.now.scan.at ≤ result.at) × (result.at ≤ length self.now.text.now) }
        ensures class { number_seen result.class ≡ first_class (drop result.at self.now.text.now) }
    {
        let here = self.look(self.scan.at);
        if here.class != Some(Class::White) {
            return here;
        }
        self.look(here.at + white_length(self.rest(here.at)))
    }

    // ---- tags

    // A start tag, from its < on.
    fn start_tag(&mut self) -> Result<(), Refusal>
        requires { AtStartTag self.old }
        ensures { Moves self.old self.new result }
    {
        let at = self.scan.at;
        if MOST_DEPTH <= self.scan.depth {
            return Err(Refusal::Depth(at));
        }
        if MOST_NODES <= self.scan.nodes {
            return Err(Refusal::ManyNodes(at));
        }
        let from = at + 1;
        let rest = self.rest(from);
        let bytes = name_length(rest);
        let names = self.names;
        let Some(tag) = names.find(&rest[..bytes]) else {
            return Err(Refusal::UnknownName(from));
        };
        let node = self.scan.nodes;
        self.words[node] = packed(tag as u64, self.scan.top as u64, 0, 0);
        self.scan = Scan {
            at: from + bytes,
            top: node,
            depth: self.scan.depth + 1,
            nodes: node + 1,
        };
        self.start_tag_end()
    }

    // What follows the name of a start tag: white, and > or />.
    fn start_tag_end(&mut self) -> Result<(), Refusal>
        requires { ReadInside start_gap self.old }
        ensures { Moves self.old self.new result }
    {
        let seen = self.past_white();
        // kept: a test of what stands ahead, as in `token`
        if seen.class == Some(Class::Greater) {
            self.scan.at = seen.at + 1;
            return Ok(());
        }
        if seen.class != Some(Class::Slash) {
            return Err(seen.stopped());
        }
        let last = self.look(seen.at + 1);
        if last.class != Some(Class::Greater) {
            return Err(last.stopped());
        }
        self.close(seen.at + 2);
        Ok(())
    }

    // An end tag, from the byte after its </ on. Its name is compared with the open element's before it is known where it ends.
    fn end_tag(&mut self) -> Result<(), Refusal>
        requires { ReadInside end_open self.old }
        ensures { Moves self.old self.new result }
    {
        let from = self.scan.at;
        let innermost = self.scan.top;
        let tag = (self.words[innermost] % FIELD) as usize;
        let names = self.names;
        let name = names.name_of(tag);
        if !named(self.rest(from), name) {
            let first = self.look(from);
            if first.class != Some(Class::Letter) {
                return Err(first.stopped());
            }
            return Err(Refusal::OtherName(from));
        }
        self.scan.at = from + name.len();
        let seen = self.past_white();
        if seen.class != Some(Class::Greater) {
            return Err(seen.stopped());
        }
        self.close(seen.at + 1);
        Ok(())
    }

    // The innermost open element ends before an offset: its size takes the place of its parent's node. The parent is the innermost
    // one then.
    fn close(&mut self, at: usize)
        requires { (self.old.scan.top < self.old.scan.nodes) × (self.old.scan.nodes ≤ 4096) × (1 ≤ self.old.scan.depth) }
        ensures { Closes self.old at self.new }
    {
        let top = self.scan.top;
        let word = self.words[top];
        self.words[top] = word % FIELD + FIELD * ((self.scan.nodes - top) as u64);
        self.scan = Scan {
            at,
            top: (word / FIELD) as usize,
            depth: self.scan.depth - 1,
            ..self.scan
        };
    }

    // ---- texts

    // A text, up to the < after it.
    fn text_node(&mut self) -> Result<(), Refusal>
        requires { ReadInside blank self.old × Solid (first_class (drop self.old.scan.at self.old.text.now)) }
        ensures { Moves self.old self.new result }
    {
        let at = self.scan.at;
        let node = self.scan.nodes;
        if MOST_NODES <= node {
            return Err(Refusal::ManyNodes(at));
        }
        let rest = self.rest(at);
        let bytes = text_length(rest);
        let next = self.look(at + bytes);
        if next.class != Some(Class::Less) {
            return Err(next.stopped());
        }
        let text = trimmed(&rest[..bytes]);
        let symbol = of_kind(chars::kind_of(text));
        self.words[node] = packed(u64::from(symbol), 1, at as u64, text.len() as u64);
        self.scan = Scan {
            at: next.at,
            nodes: node + 1,
            ..self.scan
        };
        Ok(())
    }
}
