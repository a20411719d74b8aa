// Packets put together into a message, after OpenSK's hid/receive.rs: checks 3 to 6 of a step (docs/RULES.md).
#![tactic(auto)]

mod assembler;

// A transaction, as numbers without padding, so that one type serves Rattle, Rust and C. A timer is its deadline, 0 when unset. len is the declared length,
// and 0 where there is no transaction.
#[repr(C)]
#[derive(Clone, Copy)]
pub struct MessageAssembler {
    pub deadline: u64,
    pub cid: u32,
    pub len: u32,
    pub taken: u32,
    pub cmd: u16,
    pub seq: u16,
}

// What a packet brings about: nothing yet, an error on the packet's channel, or a whole message at the front of the message buffer.
#[derive(Clone, Copy)]
pub enum Received {
    Refused(u8),
    Nothing,
    Error(u8),
    Message { cid: u32, cmd: u8, len: usize },
}

// The transaction after a packet, and what the packet brings about.
#[derive(Clone, Copy)]
pub struct Assembled {
    pub assembler: MessageAssembler,
    pub received: Received,
}
