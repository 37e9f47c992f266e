// The grammar of a question text, and the values that stand for its words and nodes.
#![tactic(auto)]

ghost use Rattle.std.specs.Prelude.{◌≡◌};
ghost use Rattle.grammar.specs.inner.Table.{row};

pub mod classes;
pub mod kinds;

// The class of a byte of a text.
#[derive(Clone, Copy)]
pub enum Class {
    Digit,
    Letter,
    Sign,
    Foreign,
}

// A code that was read, and where reading stopped.
#[derive(Clone, Copy)]
pub struct Found {
    pub code: u32,
    pub end: usize,
}

// A node: its kind, and what goes with it. Of an operator, the first and the second child.
#[derive(Clone, Copy)]
pub struct Row {
    pub kind: u32,
    pub first: u32,
    pub second: u32,
    pub number: u32,
}

impl Row {
    pub const fn new(kind: u32, first: u32, second: u32, number: u32) -> Row
        ensures { result ≡ row kind first second number }
    {
        Row {
            kind,
            first,
            second,
            number,
        }
    }
}

// What a primary text begins with: a whole leaf, or an opening of one or two texts, and where it stops.
#[derive(Clone, Copy)]
pub enum Leaf {
    Node(Row, usize),
    Open(u32, usize),
}
