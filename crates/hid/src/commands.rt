// Check 7: a whole message, at the front of the message buffer.
ghost use Rattle.std.specs.Prelude.{◌≡◌, ◌≤◌, take};
ghost use Rattle.ctaphid.specs.Commands.{VENDOR, command_of};
ghost use Rattle.ctaphid.specs.Transport.{on_init, on_lock, dispatch};
ghost use Rattle.hid.specs.Meaning.{transport_of};
ghost use Rattle.hid.specs.State.{serving, served_of};
ghost use Rattle.hid.specs.Commands.{Serves};

use crate::state::{error_message, no_message};
use crate::{Answer, CtapHid, Stepped};
use packet::{CtapHidCommand, CtapHidError};

pub(crate) fn preprocess_message(
    hid: CtapHid,
    cid: u32,
    cmd: u8,
    len: usize,
    message: &[u8],
    reply: &mut [u8],
) -> Stepped
    requires { Serves hid len message.now reply.old }
    ensures { serving result reply.new ≡ served_of hid hid.last (dispatch (transport_of hid message.now) hid.last cid (command_of cmd) (take len message.now)) reply.old }
{
    match CtapHidCommand::from_u8(cmd) {
        CtapHidCommand::Msg => hand_out(hid, cid, CtapHidCommand::Msg, len),
        CtapHidCommand::Cbor => hand_out(hid, cid, CtapHidCommand::Cbor, len),
        CtapHidCommand::Init => init(hid, cid, len, message, reply),
        CtapHidCommand::Ping => Stepped {
            hid,
            answer: Answer::Echo {
                cid,
                cmd: CtapHidCommand::Ping,
                len,
            },
        },
        CtapHidCommand::Cancel => no_message(hid),
        CtapHidCommand::Wink => hand_out(hid, cid, CtapHidCommand::Wink, len),
        CtapHidCommand::Lock => lock(hid, cid, len, message, reply),
        CtapHidCommand::Keepalive => error_message(hid, cid, CtapHidError::INVALID_CMD, reply),
        CtapHidCommand::Error => error_message(hid, cid, CtapHidError::INVALID_CMD, reply),
        CtapHidCommand::Vendor(number) => vendor(hid, cid, number, len, message, reply),
    }
}

fn hand_out(hid: CtapHid, cid: u32, cmd: CtapHidCommand, len: usize) -> Stepped
    ensures { result ≡ record { hid = hid; answer = Answer.Message cid cmd len } }
{
    Stepped {
        hid,
        answer: Answer::Message { cid, cmd, len },
    }
}

// One of the vendor's: handed out where set-up allowed it.
fn vendor(
    hid: CtapHid,
    cid: u32,
    number: u8,
    len: usize,
    message: &[u8],
    reply: &mut [u8],
) -> Stepped
    requires { Serves hid len message.now reply.old × (64 ≤ number) × (number ≤ 127) }
    ensures { serving result reply.new ≡ served_of hid hid.last (dispatch (transport_of hid message.now) hid.last cid (VENDOR number) (take len message.now)) reply.old }
{
    if known::is_allowed(hid.vendor, number) {
        return hand_out(hid, cid, CtapHidCommand::Vendor(number), len);
    }
    error_message(hid, cid, CtapHidError::INVALID_CMD, reply)
}

fn init(hid: CtapHid, cid: u32, len: usize, message: &[u8], reply: &mut [u8]) -> Stepped
    requires { Serves hid len message.now reply.old }
    ensures { serving result reply.new ≡ served_of hid hid.last (on_init (transport_of hid message.now) cid (take len message.now)) reply.old }
{
    let told = channels::init(hid.allocated, hid.u2f != 0, cid, &message[..len], reply);
    let answer = told.answer;
    let mut next = hid;
    next.allocated = told.allocated;
    Stepped { hid: next, answer }
}

fn lock(hid: CtapHid, cid: u32, len: usize, message: &[u8], reply: &mut [u8]) -> Stepped
    requires { Serves hid len message.now reply.old }
    ensures { serving result reply.new ≡ served_of hid hid.last (on_lock (transport_of hid message.now) hid.last cid (take len message.now)) reply.old }
{
    let told = channels::lock(hid.lock, hid.locked, hid.last, cid, &message[..len], reply);
    let answer = told.answer;
    let mut next = hid;
    next.lock = told.lock;
    next.locked = told.locked;
    Stepped { hid: next, answer }
}
