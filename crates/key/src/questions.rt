// Whether a lock of an interface, or the wink, runs at a time. The question alters nothing.
ghost use Rattle.std.specs.Prelude.{◌≡◌};
ghost use Rattle.key.specs.Questions.{key_running_of, main_locked_of, vendor_locked_of, key_winking_of};

use crate::Key;
use crate::soundness::is_key_sound;
use hid::Running;
use packet::Refusal;

impl Key {
    // Main's lock. Refusals 3 and 4, as for the others.
    pub fn is_main_locked_at(self, time: u64) -> Running
        ensures { result ≡ main_locked_of self time }
    {
        let main = self.main;
        let hid = main.hid;
        running(self, time, hid.lock)
    }

    pub fn is_vendor_locked_at(self, time: u64) -> Running
        ensures { result ≡ vendor_locked_of self time }
    {
        let vendor = self.vendor;
        running(self, time, vendor.lock)
    }

    pub fn is_winking_at(self, time: u64) -> Running
        ensures { result ≡ key_winking_of self time }
    {
        let main = self.main;
        running(self, time, main.wink)
    }

    // The questions over a lent key.
    pub fn has_main_lock(&self, time: u64) -> Running
        ensures { result ≡ main_locked_of self.now time }
    {
        self.is_main_locked_at(time)
    }

    pub fn has_vendor_lock(&self, time: u64) -> Running
        ensures { result ≡ vendor_locked_of self.now time }
    {
        self.is_vendor_locked_at(time)
    }

    pub fn should_wink(&self, time: u64) -> Running
        ensures { result ≡ key_winking_of self.now time }
    {
        self.is_winking_at(time)
    }
}

fn running(key: Key, time: u64, until: u64) -> Running
    ensures { result ≡ key_running_of key time until }
{
    if is_key_sound(key) {
        let main = key.main;
        let hid = main.hid;
        return hid::running_soundly(hid.last, time, until);
    }
    Running::Refused(Refusal::UNSOUND)
}
