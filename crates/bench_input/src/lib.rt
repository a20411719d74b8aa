// Input of the bench program, cut into lines, and what a line says. docs/RULES.md, The bench's lines.
#![tactic(auto)]

mod hex;
mod lines;
mod pieces;

pub use lines::read_line;
pub use pieces::cut_line;

// Where a line ends in a piece of input. kept bytes of it stand at the line buffer's front: all of them, or as many as there is room for.
#[derive(Clone, Copy, Debug, PartialEq, Eq)]
pub enum Cut {
    // The next line begins at next.
    Whole { kept: usize, next: usize },
    // The piece ends first.
    Part(usize),
}

// What a line of the bench says. The packet stands beside, as read_line writes it into the caller's.
#[derive(Clone, Copy, Debug, PartialEq, Eq)]
pub struct Line {
    pub time: u64,
    pub disabled: bool,
}
