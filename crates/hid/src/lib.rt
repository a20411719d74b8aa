// The device's side of CTAPHID, after the rest of OpenSK's hid/mod.rs, and main_hid.rs.
#![tactic(auto)]

mod commands;
mod due;
mod hearing;
mod main_hid;
mod questions;
mod refusals;
mod set_up;
mod shortcut;
mod soundness;
mod state;
mod transport;

pub use answers::{Answer, payload};
pub use questions::running_soundly;
pub use receive::MessageAssembler;
pub use soundness::is_sound;

// Every state is numbers, without padding, so that one type serves Rattle, Rust and C. A timer is its deadline, 0 when unset.
// The transport. Channels 1 to allocated are allocated; locked holds the lock until the time lock; u2f is 0 for a key without; vendor has a bit for each of the
// vendor's 64 numbers, the lowest for 64; still_due continuations are still due, for a light to read. spare is ignored, and stays as it is.
#[repr(C)]
#[derive(Clone, Copy)]
pub struct CtapHid {
    pub assembler: MessageAssembler,
    pub lock: u64,
    pub last: u64,
    pub vendor: u64,
    pub allocated: u32,
    pub locked: u32,
    pub max: u32,
    pub u2f: u8,
    pub spare: u8,
    pub still_due: u16,
}

// The transport and the wink, which runs until the time wink.
#[repr(C)]
#[derive(Clone, Copy)]
pub struct MainHid {
    pub hid: CtapHid,
    pub wink: u64,
}

// A fresh transport, or a refusal.
#[derive(Clone, Copy)]
pub enum Ready {
    Hid(CtapHid),
    Refused(u8),
}

#[derive(Clone, Copy)]
pub enum MainReady {
    Hid(MainHid),
    Refused(u8),
}

// Whether a lock, or a wink, runs.
#[derive(Clone, Copy)]
pub enum Running {
    Yes,
    No,
    Refused(u8),
}

// The transport after a step, and the answer.
#[derive(Clone, Copy)]
pub struct Stepped {
    pub hid: CtapHid,
    pub answer: Answer,
}

// The device after a step, and the answer.
#[derive(Clone, Copy)]
pub struct MainStepped {
    pub hid: MainHid,
    pub answer: Answer,
}
