// Channels and the lock, after OpenSK's hid/mod.rs: of a step (docs/RULES.md) checks 1 and 2, and of check 7 the two commands that are about them.
#![tactic(auto)]

mod allocating;
mod locking;
mod validity;

pub use allocating::init;
use answers::Answer;
pub use locking::lock;
pub use validity::{has_valid_channel, is_allocated, is_shut, not_valid};

// How many channels are allocated after an INIT, and the answer.
#[derive(Clone, Copy)]
pub struct Allocated {
    pub allocated: u32,
    pub answer: Answer,
}

// Until when, and by whom, the device is locked after a LOCK, and the answer.
#[derive(Clone, Copy)]
pub struct Locked {
    pub lock: u64,
    pub locked: u32,
    pub answer: Answer,
}

const BROADCAST: u32 = 0xFFFF_FFFF;

const MAX_CID: u32 = BROADCAST - 1;
