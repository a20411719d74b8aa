// What the bench program prints for an answer of the device. docs/RULES.md, The bench's lines.
#![tactic(auto)]

mod packets;
mod placing;
mod printing;

pub use printing::{answer_text, hex_text};

#[derive(Clone, Copy)]
pub struct Texts;

impl Texts {
    // 129 packets of 2 + 128 + 1 characters: no answer prints more.
    pub const LONGEST: usize = 129 * (2 + 128 + 1);
}
