// The wait for a touch, after OpenSK's wait_and_respond_busy and check_user_presence (ctap/mod.rs). It knows no transport: while a request waits, packets
// come here. What waits for sensor and packet, and what sends, is the caller.
#![tactic(auto)]

mod responding;
mod waiting;

use packet::CtapHidCommand;

// A wait, as numbers without padding, so that one type serves Rattle, Rust and C. Every value means something: from the time deadline on the wait is over, last
// is the time of its latest step, at first of its beginning, and the request that waits came on this interface and channel. A caller numbers its interfaces as it
// likes.
#[repr(C)]
#[derive(Clone, Copy)]
pub struct Wait {
    pub deadline: u64,
    pub last: u64,
    pub interface: u32,
    pub cid: u32,
}

// A wait that begins, or why none does.
#[derive(Clone, Copy)]
pub enum Begun {
    Wait(Wait),
    Refused(u8),
}

// Whether the limit has elapsed at a time.
#[derive(Clone, Copy)]
pub enum Elapsed {
    No,
    Yes,
    Refused(u8),
}

// What the touch sensor said.
#[derive(Clone, Copy)]
pub enum UserPresence {
    Touched,
    Timeout,
    Failed(u8),
}

// Whether a packet arrived, and on which interface.
#[derive(Clone, Copy)]
pub enum RecvStatus {
    Timeout,
    Received(u32),
}

// A message of one byte for the caller to send, in one packet.
#[derive(Clone, Copy)]
pub enum Sent {
    Nothing,
    Byte {
        interface: u32,
        cid: u32,
        cmd: CtapHidCommand,
        byte: u8,
    },
}

// What a step makes of the wait. Failed has the sensor's number.
#[derive(Clone, Copy)]
pub enum Ending {
    Refused(u8),
    NotYet,
    Touched,
    Canceled,
    TimedOut,
    Failed(u8),
}

// What is to be sent, in this order, and the ending. Where first is nothing, second is too.
#[derive(Clone, Copy)]
pub struct Response {
    pub first: Sent,
    pub second: Sent,
    pub ending: Ending,
}

// The wait after a step, and the answer.
#[derive(Clone, Copy)]
pub struct Responded {
    pub wait: Wait,
    pub response: Response,
}
