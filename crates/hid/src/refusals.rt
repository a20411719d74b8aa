// Why a step is refused.
ghost use Rattle.std.specs.Prelude.{◌≡◌};
ghost use Rattle.hid.specs.Refusals.{refusal_of, refused_time};

use crate::CtapHid;
use crate::soundness::is_sound;
use packet::{Limits, Refusal};

// In this order: 1, 2, 3, 4, or 0 where it isn't. The last three are the lengths of what was lent.
pub(crate) fn refusal(
    hid: CtapHid,
    wink: u64,
    time: u64,
    packet: usize,
    message: usize,
    reply: usize,
) -> u8
    ensures { result ≡ refusal_of hid wink time packet message reply }
{
    if packet != Limits::PACKET_SIZE {
        return Refusal::PACKET_SIZE;
    }
    if message < hid.max as usize {
        return Refusal::SHORT_BUFFER;
    }
    if reply < Limits::SHORT_REPLY_SIZE {
        return Refusal::SHORT_BUFFER;
    }
    if is_sound(hid, wink) {
        return refused_time(hid.last, time);
    }
    Refusal::UNSOUND
}

// Refusal 4, or 0.
fn refused_time(last: u64, time: u64) -> u8
    ensures { result ≡ refused_time last time }
{
    if time > Limits::LAST_TIME_MS {
        return Refusal::TIME;
    }
    if time < last {
        return Refusal::TIME;
    }
    0
}
