// The reply to INIT: its fields, and what follows them.
ghost use Rattle.std.specs.Prelude.{◌≡◌, [], ◌∷◌, ◌≤◌, length};
ghost use Rattle.ctaphid.specs.Host.{init_of, init_fields, init_fields_of};
ghost use Rattle.host.specs.Meaning.{init_reply_of};
ghost use Rattle.host.specs.Init.{is_taken, IsRest};

use crate::{InitAnswer, InitReply};
use packet::{CtapHidCommand, Limits, Refusal};

// The fields of a reply to INIT. What is no such reply, or has fewer than 17 bytes or more than 7,609, is refused with 11.
pub fn init_reply(cmd: u8, payload: &[u8]) -> InitReply
    ensures { result ≡ init_reply_of (init_of cmd payload.now) }
{
    if is_init_reply(cmd, payload) {
        return fields(payload);
    }
    no_reply()
}

// What follows the fields, where later versions may add some: the payload's own bytes. Where init_reply refuses, the empty part (DECISIONS 42).
pub fn init_rest(cmd: u8, payload: &[u8]) -> &[u8]
    ensures { IsRest cmd payload.entry result }
{
    if is_init_reply(cmd, payload) {
        return &payload[FIELDS_SIZE..];
    }
    &payload[..0]
}

const FIELDS_SIZE: usize = 17;

fn is_init_reply(cmd: u8, payload: &[u8]) -> bool
    ensures { result ≡ is_taken (init_of cmd payload.now) }
{
    if cmd != CtapHidCommand::INIT {
        return false;
    }
    if payload.len() < FIELDS_SIZE {
        return false;
    }
    if payload.len() > Limits::LARGEST_PAYLOAD {
        return false;
    }
    true
}

fn no_reply() -> InitReply
    ensures { result ≡ record { nonce = 0 ∷ 0 ∷ 0 ∷ 0 ∷ 0 ∷ 0 ∷ 0 ∷ 0 ∷ []; answer = InitAnswer.Refused 11 } }
{
    InitReply {
        nonce: [0; 8],
        answer: InitAnswer::Refused(Refusal::NOT_INIT),
    }
}

fn fields(payload: &[u8]) -> InitReply
    requires { 17 ≤ length payload.now }
    ensures { result ≡ init_reply_of (init_fields (init_fields_of payload.now)) }
{
    let cid = packet::be32(payload[8], payload[9], payload[10], payload[11]);
    let nonce = [
        payload[0], payload[1], payload[2], payload[3], payload[4], payload[5], payload[6],
        payload[7],
    ];
    let answer = InitAnswer::Fields {
        cid,
        protocol: payload[12],
        major: payload[13],
        minor: payload[14],
        build: payload[15],
        capabilities: payload[16],
    };
    InitReply { nonce, answer }
}
