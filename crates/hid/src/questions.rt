// Whether a lock, or a wink, runs at a time. The question alters nothing.
ghost use Rattle.std.specs.Prelude.{◌≡◌};
ghost use Rattle.hid.specs.Questions.{running_at, running_of, locked_of, winking_of};

use crate::soundness::is_sound;
use crate::{CtapHid, MainHid, Running};
use packet::{Limits, Refusal};

impl CtapHid {
    // The lock. Refusals 3 and 4.
    pub fn is_locked_at(self, time: u64) -> Running
        ensures { result ≡ locked_of self time }
    {
        running(self, 0, time, self.lock)
    }

    // The question over a lent state.
    pub fn has_channel_lock(&self, time: u64) -> Running
        ensures { result ≡ locked_of self.now time }
    {
        self.is_locked_at(time)
    }
}

impl MainHid {
    // The wink. Refusals 3 and 4.
    pub fn is_winking_at(self, time: u64) -> Running
        ensures { result ≡ winking_of self time }
    {
        running(self.hid, self.wink, time, self.wink)
    }

    // The question over a lent state.
    pub fn should_wink(&self, time: u64) -> Running
        ensures { result ≡ winking_of self.now time }
    {
        self.is_winking_at(time)
    }
}

// Whether what ends at a time runs at another: 3, then 4.
fn running(hid: CtapHid, wink: u64, time: u64, until: u64) -> Running
    ensures { result ≡ running_of hid wink time until }
{
    if is_sound(hid, wink) {
        return running_soundly(hid.last, time, until);
    }
    Running::Refused(Refusal::UNSOUND)
}

// The same of a sound state. Refusal 4.
pub fn running_soundly(last: u64, time: u64, until: u64) -> Running
    ensures { result ≡ running_at last time until }
{
    if time > Limits::LAST_TIME_MS {
        return Running::Refused(Refusal::TIME);
    }
    if time < last {
        return Running::Refused(Refusal::TIME);
    }
    if time < until {
        return Running::Yes;
    }
    Running::No
}
