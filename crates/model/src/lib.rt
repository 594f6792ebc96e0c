// The answers of the public calls: a count of names, nodes, bytes or words, or a verdict; or a refusal. And the kinds of texts.
// `specs/Answers.antt` and `specs/Bytes.antt` give document 01's numbers and values for each case.
#![tactic(auto)]

// Why a call refuses its input, with the place that document 01 names.
#[derive(Clone, Copy)]
pub enum Refusal {
    // 1: the text has over 65,535 bytes
    LongText,
    // 2: a forbidden byte
    ForbiddenByte(usize),
    // 3: a byte, or the end, that the form cannot go on with
    Syntax(usize),
    // 4: a start tag's name that is not listed
    UnknownName(usize),
    // 5: an end tag that names another element
    OtherName(usize),
    // 6: a start tag at depth 33
    Depth(usize),
    // 7: node 4,097
    ManyNodes(usize),
    // 8: the name list
    NameList(usize),
    // 9: the sheet
    Sheet(usize),
    // 10: the shape of the tree
    Tree(usize),
    // 11: the text words of a node
    TextWords(usize),
    // 20: tag counts that differ
    TagCounts(usize),
    // 21: the joint sheet is over a limit
    JointLimit(usize),
    // 22: a lent buffer is too short
    ShortBuffer(usize),
    // 23: a node reaches two states
    TwoStates(usize),
    // 24: the written form has over 65,535 bytes
    LongForm(usize),
}

// The kind of a text: an integer, which is digits alone, or any other.
#[derive(Clone, Copy, PartialEq, Eq)]
pub enum TextKind {
    Integer,
    Other,
}

// What a run gives that is not refused: the root's state, final or not, or the highest-numbered node without a state; and the looks.
#[derive(Clone, Copy)]
pub enum Verdict {
    Accepted { state: u32, looks: u32 },
    Refused { state: u32, looks: u32 },
    Stuck { node: usize, looks: u32 },
}
