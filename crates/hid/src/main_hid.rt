// The outer layer, after OpenSK's main_hid.rs: wink, and the hand-over of MSG, CBOR and vendor commands. Check 8 of a step (docs/RULES.md).
ghost use Rattle.std.specs.Prelude.{◌≡◌, [], ◌∷◌, ◌≤◌, length};
ghost use Rattle.collect.specs.Adding.{front};
ghost use Rattle.hid.specs.MainHid.{finishing, outer, Winks, Msgs, Requests, Finishes, Asks, main_stepping, main_step_of};

use crate::refusals::refusal;
use crate::shortcut::{go_on, is_due};
use crate::transport::admit;
use crate::{Answer, CtapHid, MainHid, MainStepped};
use packet::{CtapHidCommand, CtapHidError, Limits};

impl MainHid {
    // Checks 1 to 8. Refusals in the order 1, 2, 3, 4.
    pub fn step(
        self,
        time: u64,
        disabled: bool,
        packet: &[u8],
        message: &mut [u8],
        reply: &mut [u8],
    ) -> MainStepped
        ensures { main_stepping result message.new reply.new ≡ main_step_of self time disabled packet.now message.old reply.old }
    {
        let hid = self.hid;
        if is_due(hid, time, disabled, packet) {
            if refusal(
                hid,
                self.wink,
                time,
                packet.len(),
                message.len(),
                reply.len(),
            ) == 0
            {
                let next = go_on(hid, time, packet, message);
                return with_wink(next, self.wink, Answer::Nothing);
            }
        }
        let stepped = admit(hid, self.wink, time, disabled, packet, message, reply);
        let answer = stepped.answer;
        finish(stepped.hid, self.wink, answer, reply)
    }

    // The step over a lent state, which is left as it came where the call is refused.
    pub fn process_hid_packet(
        &mut self,
        time: u64,
        disabled: bool,
        packet: &[u8],
        message: &mut [u8],
        reply: &mut [u8],
    ) -> Answer
        ensures { main_stepping (record { hid = self.new; answer = result }) message.new reply.new ≡ main_step_of self.old time disabled packet.now message.old reply.old }
    {
        let stepped = self.step(time, disabled, packet, message, reply);
        *self = stepped.hid;
        stepped.answer
    }
}

// Check 8, for whatever the transport answered. Only a refusal and nothing leave a wink running.
fn finish(hid: CtapHid, wink: u64, answer: Answer, reply: &mut [u8]) -> MainStepped
    requires { Asks hid answer reply.old }
    ensures { Finishes hid wink answer reply.old (finishing result reply.new) }
{
    match answer {
        Answer::Message { cid, cmd, len } => on_request(hid, cid, cmd, len, reply),
        Answer::Nothing => with_wink(hid, wink, answer),
        Answer::Echo {
            cid: _,
            cmd: _,
            len: _,
        } => with_wink(hid, 0, answer),
        Answer::Reply {
            cid: _,
            cmd: _,
            len: _,
        } => with_wink(hid, 0, answer),
        Answer::Refused(_) => with_wink(hid, wink, answer),
    }
}

// A message that the transport handed out.
fn on_request(
    hid: CtapHid,
    cid: u32,
    cmd: CtapHidCommand,
    len: usize,
    reply: &mut [u8],
) -> MainStepped
    requires { (hid.last ≤ 0xffff_ffff_ffff) × (17 ≤ length reply.old) }
    ensures { Requests hid cid cmd len reply.old (finishing result reply.new) }
{
    let number = cmd.number();
    if number == CtapHidCommand::WINK {
        return on_wink(hid, cid, len, reply);
    }
    if number == CtapHidCommand::MSG {
        return on_msg(hid, cid, len, reply);
    }
    with_wink(hid, 0, Answer::Message { cid, cmd, len })
}

fn on_wink(hid: CtapHid, cid: u32, len: usize, reply: &mut [u8]) -> MainStepped
    requires { (hid.last ≤ 0xffff_ffff_ffff) × (17 ≤ length reply.old) }
    ensures { Winks hid cid len reply.old (finishing result reply.new) }
{
    if len != 0 {
        return error_reply(hid, cid, CtapHidError::INVALID_LEN, reply);
    }
    let answer = Answer::Echo {
        cid,
        cmd: CtapHidCommand::Wink,
        len: 0,
    };
    with_wink(hid, hid.last + Limits::WINK_TIMEOUT_MS, answer)
}

fn on_msg(hid: CtapHid, cid: u32, len: usize, reply: &mut [u8]) -> MainStepped
    requires { 17 ≤ length reply.old }
    ensures { Msgs hid cid len reply.old (finishing result reply.new) }
{
    if hid.u2f == 0 {
        return error_reply(hid, cid, CtapHidError::INVALID_CMD, reply);
    }
    let answer = Answer::Message {
        cid,
        cmd: CtapHidCommand::Msg,
        len,
    };
    with_wink(hid, 0, answer)
}

// An error ends a wink as any reply does.
fn error_reply(hid: CtapHid, cid: u32, error: u8, reply: &mut [u8]) -> MainStepped
    requires { 17 ≤ length reply.old }
    ensures { finishing result reply.new ≡ finishing (outer hid 0 (Answer.Reply cid CtapHidCommand.Error 1)) (front (error ∷ []) reply.old) }
{
    let answer = answers::error_message(cid, error, reply);
    with_wink(hid, 0, answer)
}

fn with_wink(hid: CtapHid, wink: u64, answer: Answer) -> MainStepped
    ensures { result ≡ outer hid wink answer }
{
    let main = MainHid { hid, wink };
    MainStepped { hid: main, answer }
}
