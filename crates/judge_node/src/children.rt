// The nodes of a tree, and the state words of a node's children, one after another.
ghost use Rattle.std.specs.Prelude.{◌≡◌, ◌<◌, ◌≤◌, length};
ghost use Rattle.judge_node.specs.Node.{Sized, Shaped, words_inside};

use layout::NODE_WORDS;

// The nodes of a tree, each with a state word.
#[derive(Clone, Copy)]
pub struct Nodes<'a, 's> {
    pub tree: &'a [u32],
    pub states: &'s [u32],
    pub ghost shaped: { Shaped tree.now (length states.now) },
}

impl<'a, 's> Nodes<'a, 's> {
    ghost use Rattle.judge_node.specs.ChildWords.{words_of};

    // The number of nodes that node i and what is inside it make.
    fn size(&self, i: usize) -> usize
        requires { i < length self.now.states.now }
        ensures { Sized self.now.tree.now i result }
    {
        self.tree[NODE_WORDS * i + 1] as usize
    }

    // The children of node i.
    pub(crate) fn children(&self, i: usize) -> ChildWords<'a, 's>
        requires { i < length self.now.states.now }
        ensures { words_of result ≡ words_inside self.now.tree.now self.now.states.now i }
    {
        ChildWords {
            nodes: *self,
            next: i + 1,
            end: i + self.size(i),
        }
    }
}

// The children of a node from one on, as their state words: each child is after what is inside the one before.
#[derive(Drop)]
pub struct ChildWords<'a, 's> {
    nodes: Nodes<'a, 's>,
    next: usize,
    end: usize,
    ghost within: { end ≤ length nodes.states.now },
}

impl ChildWords<'_, '_> {
    ghost use Rattle.std.specs.Prelude.{◌≢◌, true, false, []};
    ghost use Rattle.std.specs.Option.{MatchOption};
    ghost use Rattle.model.specs.Lists.{has};
    ghost use Rattle.judge_node.specs.ChildWords.{words_of, Gathered};

    // Whether none is left.
    pub(crate) fn is_empty(&self) -> bool
        ensures none { result ≡ true → words_of self.now ≡ [] }
        ensures some { result ≡ false → words_of self.now ≢ [] }
    {
        self.end <= self.next
    }

    // Their state words, gathered to the front of `words`; none where one of them has no state.
    pub(crate) fn gather<'w>(self, words: &'w mut [u32]) -> Option<&'w [u32]>
        requires { length (words_of self) ≤ length words.old }
        ensures { MatchOption result (has (words_of self.entry) 0 ≡ true) (λ words. Gathered self.entry words.now) }
    {
        let mut n = 0;
        // kept: the number is asked after the loop too, where that of `enumerate` is gone, so that a count by hand would stand beside it
        for word in self {
            if word == 0 {
                return None;
            }
            words[n] = word;
            n += 1;
        }
        Some(&words[..n])
    }
}

impl Iterator for ChildWords<'_, '_> {
    ghost use Rattle.std.specs.Iterator.{item_count};
    ghost use Rattle.judge_node.specs.ChildWords.{words_of, NextChild};

    type Item = u32;

    ghost next_gives = { NextChild };

    ghost remaining = { item_count words_of };

    fn next(&mut self) -> Option<u32> {
        if self.is_empty() {
            return None;
        }
        let child = self.next;
        self.next = child + self.nodes.size(child);
        Some(self.nodes.states[child])
    }
}
