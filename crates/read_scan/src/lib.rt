// How far a text is read, and where it is refused.
#![tactic(auto)]

ghost use Rattle.std.specs.Prelude.{◌≡◌};
ghost use Rattle.chars.specs.Classes.{number_seen};
ghost use Rattle.read_scan.specs.Scans.{stop_by};

use chars::Class;
use model::Refusal;

// How far a text is read: the next byte, the node of the innermost open element, how many elements are open, and how many nodes
// there are.
#[derive(Clone, Copy)]
pub struct Scan {
    pub at: usize,
    pub top: usize,
    pub depth: usize,
    pub nodes: usize,
}

// An offset of a text, and the class of the byte there; none at the end.
#[derive(Clone, Copy)]
pub struct Seen {
    pub at: usize,
    pub class: Option<Class>,
}

impl Seen {
    // The refusal at the byte, by its class, or at the end, where a form can't go on.
    pub fn stopped(self) -> Refusal
        ensures { result ≡ stop_by (number_seen self.class) self.at }
    {
        // kept: one class has a refusal of its own, and all others have one; no step is run
        if self.class == Some(Class::Forbidden) {
            return Refusal::ForbiddenByte(self.at);
        }
        Refusal::Syntax(self.at)
    }
}
