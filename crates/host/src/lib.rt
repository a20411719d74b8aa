// The host's side of CTAPHID: the packets of one channel put together into replies. OpenSK has none; docs/RULES.md says what it does.
#![tactic(auto)]

mod init;
mod reading;
mod soundness;

pub use init::{init_reply, init_rest};

// A reply that is being collected, as numbers without padding, so that one type serves Rattle, Rust and C. len is the declared length, and 0 where no reply
// is begun: a begun one has more than 57 bytes.
#[repr(C)]
#[derive(Clone, Copy)]
pub struct Collection {
    pub len: u16,
    pub taken: u16,
    pub cmd: u8,
    pub seq: u8,
}

// What a packet brings about. A reply's payload is the first len bytes of the buffer, and its command number is as it stood.
#[derive(Clone, Copy)]
pub enum Answer {
    Refused(u8),
    Ignored,
    Keepalive(u8),
    Waiting,
    Reply { cmd: u8, len: usize },
}

// The collection after a packet, and the answer.
#[derive(Clone, Copy)]
pub struct Progress {
    pub collection: Collection,
    pub answer: Answer,
}

// What a reply to INIT tells, but for the nonce.
#[derive(Clone, Copy)]
pub enum InitAnswer {
    Refused(u8),
    Fields {
        cid: u32,
        protocol: u8,
        major: u8,
        minor: u8,
        build: u8,
        capabilities: u8,
    },
}

// The nonce stands beside, as no enum holds an array. It is 0 where the reply is refused.
#[derive(Clone, Copy)]
pub struct InitReply {
    pub nonce: [u8; 8],
    pub answer: InitAnswer,
}
