// The bytes of a form, put into a buffer one after another.
#![tactic(auto)]

ghost use Rattle.std.specs.Prelude.{◌≡◌, ◌++◌, ◌+◌, ◌≤◌, length};
ghost use Rattle.model.specs.Written.{source_bytes};
ghost use Rattle.write_nodes.specs.Nodes.{span_of};
ghost use Rattle.write_bytes.specs.Put.{empty_tag, start_tag, end_tag, Room, Writes};

use write_nodes::Node;

// A buffer that bytes are put into one after another, and the index of the next.
#[derive(Drop)]
pub struct Form<'a> {
    out: &'a mut [u8],
    at: usize,
}

impl<'a> Form<'a> {
    // An empty form at the front of a buffer.
    pub fn new(out: &'a mut [u8]) -> Form<'a>
        ensures same { result.out.ghost_name ≡ out.entry.ghost_name }
        ensures bytes { result.out.now ≡ out.old }
        ensures at { result.at ≡ 0 }
    {
        Form { out, at: 0 }
    }

    // How many bytes have been put.
    pub fn count(&self) -> usize
        ensures { result ≡ self.now.at }
    {
        self.at
    }

    // kept: std's Write for &mut [u8] tells how much room is left and nothing of the bytes before it, so that no proof could go on
    fn put(&mut self, bytes: &[u8])
        requires { Room self.old bytes.now }
        ensures { Writes self.old bytes.now self.new }
    {
        // Both are read once, since the compiler would read them again after each byte, and then can't store many bytes together.
        let at = self.at;
        let out = &mut *self.out;
        // kept: copy_from_slice becomes a call of memmove, which the library for C needed nowhere before
        for i in 0..bytes.len() {
            out[at + i] = bytes[i];
        }
        self.at = at + bytes.len();
    }

    // Puts a name between two marks.
    fn put_between(&mut self, before: &[u8], name: &[u8], after: &[u8])
        requires { Room self.old (before.now ++ (name.now ++ after.now)) }
        ensures { Writes self.old (before.now ++ (name.now ++ after.now)) self.new }
    {
        self.put(before);
        self.put(name);
        self.put(after);
    }

    // kept: the three differ in the marks alone, which put_between takes; each promises the bytes of its own kind of tag
    pub fn put_empty_tag(&mut self, name: &[u8])
        requires { Room self.old (empty_tag name.now) }
        ensures { Writes self.old (empty_tag name.now) self.new }
    {
        self.put_between(b"<", name, b"/>");
    }

    pub fn put_start_tag(&mut self, name: &[u8])
        requires { Room self.old (start_tag name.now) }
        ensures { Writes self.old (start_tag name.now) self.new }
    {
        self.put_between(b"<", name, b">");
    }

    pub fn put_end_tag(&mut self, name: &[u8])
        requires { Room self.old (end_tag name.now) }
        ensures { Writes self.old (end_tag name.now) self.new }
    {
        self.put_between(b"</", name, b">");
    }

    // The bytes of the text that a node says.
    pub fn put_text(&mut self, text: &[u8], node: Node)
        requires within { node.start + node.bytes ≤ length text.now }
        requires room { self.old.at + node.bytes ≤ length self.old.out.now }
        ensures { Writes self.old (source_bytes text.now (span_of node)) self.new }
    {
        let start = node.start as usize;
        let end = start + node.bytes as usize;
        self.put(&text[start..end]);
    }
}
