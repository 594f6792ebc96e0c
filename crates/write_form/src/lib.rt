// The form of a tree, put into a buffer.
#![tactic(auto)]

ghost use Rattle.write_form.specs.Stands.{Standing};

use symbols::Symbol;
use write_bytes::Form;
use write_nodes::Sources;

// The nodes from `first` up to `end` that are side by side under one parent, where `levels` elements may lie one in another.
#[derive(Clone, Copy)]
pub struct Siblings<'a> {
    pub sources: &'a Sources<'a>,
    pub levels: u32,
    pub first: usize,
    pub end: usize,
    pub ghost standing: { ∥ Standing sources.now.list.now sources.now.text.now sources.now.tree.now levels first end ∥₁ },
}

impl<'a> Iterator for Siblings<'a> {
    ghost use Rattle.std.specs.Prelude.{◌-◌};
    ghost use Rattle.std.specs.Iterator.{at_most};
    ghost use Rattle.write_form.specs.Forms.{NextNode};

    type Item = usize;

    ghost next_gives = { NextNode };

    ghost remaining = { λ s. at_most (s.end - s.first) };

    // The number of the next node. A text has size 1, and what is inside an element is passed by.
    fn next(&mut self) -> Option<usize> {
        let i = self.first;
        if self.end <= i {
            return None;
        }
        self.first = i + self.sources.node(i).size as usize;
        Some(i)
    }
}

impl<'a> Siblings<'a> {
    ghost use Rattle.write_form.specs.Forms.{Ready, Puts};

    // Puts the form of the siblings; calls itself for what is inside a child element, with one level less.
    pub fn put_into(self, form: &mut Form)
        requires { Ready self form.old }
        ensures { Puts self.entry form.old form.new }
    {
        let sources = self.sources;
        let levels = self.levels;
        for i in self {
            let node = sources.node(i);
            if let Symbol::Tag(tag) = Symbol::from(node.symbol) {
                let name = sources.name_of(tag);
                let size = node.size as usize;
                if size == 1 {
                    form.put_empty_tag(name);
                } else {
                    let content = Siblings {
                        sources,
                        levels: levels - 1,
                        first: i + 1,
                        end: i + size,
                    };
                    form.put_start_tag(name);
                    content.put_into(form);
                    form.put_end_tag(name);
                }
            } else {
                form.put_text(sources.text, node);
            }
        }
    }
}
