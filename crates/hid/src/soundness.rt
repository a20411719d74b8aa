// Whether a state makes sense: the list of docs/RULES.md, in its order.
ghost use Rattle.std.specs.Prelude.{◌≡◌, ◌≤◌};
ghost use Rattle.hid.specs.Soundness.{is_sound, is_timely, is_held, transacts, is_counted, is_on_channel};

use crate::{CtapHid, MessageAssembler};
use channels::is_allocated;
use packet::{CtapHidCommand, Limits};

const LONGEST_LOCK_MS: u64 = 10000;

pub fn is_sound(hid: CtapHid, wink: u64) -> bool
    ensures { result ≡ is_sound hid wink }
{
    if hid.max > 7609 {
        return false;
    }
    if hid.allocated > 0xFFFF_FFFE {
        return false;
    }
    if hid.last > Limits::LAST_TIME_MS {
        return false;
    }
    if is_timely(hid, wink) {
        return transacts(hid);
    }
    false
}

// No deadline is further past the last time than it can have been set, and a lock that runs is an allocated channel's.
fn is_timely(hid: CtapHid, wink: u64) -> bool
    requires { hid.last ≤ 0xffff_ffff_ffff }
    ensures { result ≡ is_timely hid wink }
{
    let assembler = hid.assembler;
    if assembler.deadline > hid.last + Limits::TIMEOUT_MS {
        return false;
    }
    if hid.lock > hid.last + LONGEST_LOCK_MS {
        return false;
    }
    if wink > hid.last + Limits::WINK_TIMEOUT_MS {
        return false;
    }
    is_held(hid)
}

fn is_held(hid: CtapHid) -> bool
    ensures { result ≡ is_held hid }
{
    if hid.last < hid.lock {
        return is_allocated(hid.allocated, hid.locked);
    }
    true
}

// There is no transaction, and nothing is due; or a sound one on a channel that may have it.
fn transacts(hid: CtapHid) -> bool
    requires { hid.max ≤ 7609 }
    ensures { result ≡ transacts hid }
{
    let a = hid.assembler;
    if hid.still_due == 0 {
        return a.len == 0;
    }
    if is_counted(hid.max, hid.still_due, a) {
        return is_on_channel(hid.allocated, a.cid, a.cmd);
    }
    false
}

// A sound transaction of which so many packets are still due. Where there are any, and with those taken they are all of the declared length, more is declared
// than taken: that isn't asked again.
fn is_counted(max: u32, due: u16, a: MessageAssembler) -> bool
    requires { (max ≤ 7609) × (due ≡ 0 → ⊥) }
    ensures { result ≡ is_counted max due a }
{
    let seq = a.seq as u32;
    if a.cmd > 127 {
        return false;
    }
    if a.len > max {
        return false;
    }
    if a.taken != 57 + 59 * seq {
        return false;
    }
    (a.len + 1) / 59 == seq + due as u32
}

// An allocated channel, or INIT on the broadcast channel.
fn is_on_channel(allocated: u32, cid: u32, cmd: u16) -> bool
    ensures { result ≡ is_on_channel allocated cid cmd }
{
    if is_allocated(allocated, cid) {
        return true;
    }
    if cid != 0xFFFF_FFFF {
        return false;
    }
    cmd == CtapHidCommand::INIT as u16
}
