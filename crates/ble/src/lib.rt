// Bluetooth framing: a message written in fragments, and fragments put together into a message, for either end. OpenSK has none; docs/RULES.md says what it does.
#![tactic(auto)]

mod command;
mod limits;
mod reading;
mod soundness;
mod writing;

pub use command::BleCommand;
use host::Collection;
pub use limits::BleLimits;
pub use reading::{read_fragment, take_fragment};
pub use writing::{fragment_count, write_fragment};

// How many fragments a payload takes.
#[derive(Clone, Copy)]
pub enum Count {
    Fragments(usize),
    Refused(u8),
}

// How many bytes of the buffer a fragment that was written takes. A refused call leaves the buffer as it came.
#[derive(Clone, Copy)]
pub enum Written {
    Fragment(usize),
    Refused(u8),
}

// What a fragment brings about. A message's payload is the first len bytes of the buffer, and its command byte is as it stood.
#[derive(Clone, Copy)]
pub enum Answer {
    Refused(u8),
    Waiting,
    Message { cmd: u8, len: usize },
}

// The collection after a fragment, and the answer. The collection is the host's, of numbers alone: here cmd is the whole byte.
#[derive(Clone, Copy)]
pub struct Progress {
    pub collection: Collection,
    pub answer: Answer,
}
