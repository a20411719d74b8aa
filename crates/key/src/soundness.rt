// Whether a record makes sense: each interface by itself, and not two locks that run at the last time.
ghost use Rattle.std.specs.Prelude.{◌≡◌};
ghost use Rattle.key.specs.Soundness.{is_key_sound, is_fit, is_quiet};

use crate::Key;
use crate::parts::vendor_of;
use hid::CtapHid;

pub(crate) fn is_key_sound(key: Key) -> bool
    ensures { result ≡ is_key_sound key }
{
    let main = key.main;
    let hid = main.hid;
    if hid::is_sound(hid, main.wink) {
        return is_fit(vendor_of(key), 0, hid.lock);
    }
    false
}

// An interface that makes sense by itself, beside one that has its lock until then. A wink that runs until then is main's.
pub(crate) fn is_fit(hid: CtapHid, wink: u64, lock: u64) -> bool
    ensures { result ≡ is_fit hid wink lock }
{
    if hid.last < hid.lock {
        if hid.last < lock {
            return false;
        }
    }
    hid::is_sound(hid, wink)
}

// Nothing runs and nothing is on its way in: an interface that mostly is so is tested in few steps (docs/SPEED.md).
pub(crate) fn is_quiet(hid: CtapHid, wink: u64) -> bool
    ensures { result ≡ is_quiet hid wink }
{
    if hid.last < hid.lock {
        return false;
    }
    if hid.last < wink {
        return false;
    }
    if hid.still_due != 0 {
        return false;
    }
    if hid.max > 7609 {
        return false;
    }
    if hid.allocated > 0xFFFF_FFFE {
        return false;
    }
    let a = hid.assembler;
    if hid.last < a.deadline {
        return false;
    }
    a.len == 0
}
