// A line of the bench program, answered: read, a step of the device on it, and what that prints. docs/RULES.md, The bench's lines.
#![tactic(auto)]

mod answering;

pub use answering::bench_line;
use hid::MainHid;
use packet::Refusal;

// The device after a line, and how much of the text buffer's front the line prints.
#[derive(Clone, Copy)]
pub struct Printed {
    pub hid: MainHid,
    pub text: Result<usize, Refusal>,
}
