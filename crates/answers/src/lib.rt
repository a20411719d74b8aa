// What a step of the device answers, and where it puts what is to be sent.
#![tactic(auto)]

mod payloads;
mod replies;

use packet::CtapHidCommand;
pub use payloads::payload;
pub use replies::error_message;

// A payload is the first len bytes of the message buffer or of the short reply buffer.
#[derive(Clone, Copy)]
pub enum Answer {
    Refused(u8),
    Nothing,
    // A message that is handed out, in the message buffer.
    Message {
        cid: u32,
        cmd: CtapHidCommand,
        len: usize,
    },
    // A reply whose payload is the request's, in the message buffer.
    Echo {
        cid: u32,
        cmd: CtapHidCommand,
        len: usize,
    },
    // A reply in the short reply buffer.
    Reply {
        cid: u32,
        cmd: CtapHidCommand,
        len: usize,
    },
}
