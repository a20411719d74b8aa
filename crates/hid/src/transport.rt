// The transport's step: the refusals, then checks 1 to 7 (docs/RULES.md).
ghost use Rattle.std.specs.Prelude.{◌≡◌};
ghost use Rattle.hid.specs.Hearing.{stepping};
ghost use Rattle.hid.specs.Transport.{admitted_of, step_of};

use crate::hearing::process_packet;
use crate::refusals::refusal;
use crate::shortcut::{go_on, is_due};
use crate::state::no_message;
use crate::{Answer, CtapHid, Stepped};

impl CtapHid {
    // Refusals in the order 1, 2, 3, 4.
    pub fn step(
        self,
        time: u64,
        disabled: bool,
        packet: &[u8],
        message: &mut [u8],
        reply: &mut [u8],
    ) -> Stepped
        ensures { stepping result message.new reply.new ≡ step_of self time disabled packet.now message.old reply.old }
    {
        if is_due(self, time, disabled, packet) {
            if refusal(self, 0, time, packet.len(), message.len(), reply.len()) == 0 {
                let next = go_on(self, time, packet, message);
                return no_message(next);
            }
        }
        // a local of its own keeps the short way's result out of memory: docs/SPEED.md
        let stepped = admit(self, 0, time, disabled, packet, message, reply);
        stepped
    }

    // The step over a lent state, which is left as it came where the call is refused.
    pub fn parse_packet(
        &mut self,
        time: u64,
        disabled: bool,
        packet: &[u8],
        message: &mut [u8],
        reply: &mut [u8],
    ) -> Answer
        ensures { stepping (record { hid = self.new; answer = result }) message.new reply.new ≡ step_of self.old time disabled packet.now message.old reply.old }
    {
        let stepped = self.step(time, disabled, packet, message, reply);
        *self = stepped.hid;
        stepped.answer
    }
}

// A packet that is refused, or heard. A wink that runs until then is the layer's above.
pub(crate) fn admit(
    hid: CtapHid,
    wink: u64,
    time: u64,
    disabled: bool,
    packet: &[u8],
    message: &mut [u8],
    reply: &mut [u8],
) -> Stepped
    ensures { stepping result message.new reply.new ≡ admitted_of hid wink time disabled packet.now message.old reply.old }
{
    let number = refusal(hid, wink, time, packet.len(), message.len(), reply.len());
    if number != 0 {
        return Stepped {
            hid,
            answer: Answer::Refused(number),
        };
    }
    process_packet(hid, time, disabled, packet, message, reply)
}
