// A step on each interface: hid's own, with the flag worked out from the other's lock.
ghost use Rattle.std.specs.Prelude.{◌≡◌};
ghost use Rattle.hid.specs.Hearing.{stepping};
ghost use Rattle.hid.specs.MainHid.{main_stepping};
ghost use Rattle.key.specs.Meaning.{vendor_in};
ghost use Rattle.key.specs.Stepping.{last_beside, restored_of, main_key_of, vendor_key_of, key_stepping, main_laid, vendor_laid};

use crate::Key;
use crate::parts::{vendor_by, vendor_of};
use crate::soundness::{is_fit, is_quiet};
use crate::vendor_hid::finish;
use answers::Answer;
use hid::{CtapHid, MainHid, MainStepped, Stepped};

// A last time that there isn't. No sound state has it, so a step that meets it is refused with 3, in its order.
const NEVER: u64 = 0xFFFF_FFFF_FFFF_FFFF;

impl Key {
    // Checks 1 to 8 on main, and main as the step leaves it; nothing else of the key alters. Refusals in the order 1, 2, 3, 4.
    pub fn step_main(
        self,
        time: u64,
        packet: &[u8],
        message: &mut [u8],
        reply: &mut [u8],
    ) -> MainStepped
        ensures { main_stepping result message.new reply.new ≡ main_key_of self time packet.now message.old reply.old }
    {
        let main = self.main;
        let hid = main.hid;
        let vendor = self.vendor;
        let mut own = hid;
        if !is_quiet(vendor_by(vendor, hid.last), 0) {
            own.last = last_beside_vendor(self);
        }
        let fitted = MainHid {
            hid: own,
            wink: main.wink,
        };
        let stepped = fitted.step(time, time < vendor.lock, packet, message, reply);
        restored(hid.last, stepped)
    }

    // Checks 1 to 8 on vendor, and vendor, as the transport that it is, as the step leaves it.
    pub fn step_vendor(
        self,
        time: u64,
        packet: &[u8],
        message: &mut [u8],
        reply: &mut [u8],
    ) -> Stepped
        ensures { stepping result message.new reply.new ≡ vendor_key_of self time packet.now message.old reply.old }
    {
        let main = self.main;
        let hid = main.hid;
        let mut own = vendor_of(self);
        if !is_quiet(hid, main.wink) {
            own.last = last_beside_main(self);
        }
        let stepped = own.step(time, time < hid.lock, packet, message, reply);
        finish(hid.last, stepped, reply)
    }

    // The steps over a lent key, which is left as it came where the call is refused. What no step alters isn't stored.
    pub fn process_main_packet(
        &mut self,
        time: u64,
        packet: &[u8],
        message: &mut [u8],
        reply: &mut [u8],
    ) -> Answer
        ensures { key_stepping self.new result message.new reply.new ≡ main_laid self.old (main_key_of self.old time packet.now message.old reply.old) }
    {
        let stepped = self.step_main(time, packet, message, reply);
        self.main = stepped.hid;
        stepped.answer
    }

    pub fn process_vendor_packet(
        &mut self,
        time: u64,
        packet: &[u8],
        message: &mut [u8],
        reply: &mut [u8],
    ) -> Answer
        ensures { key_stepping self.new result message.new reply.new ≡ vendor_laid self.old (vendor_key_of self.old time packet.now message.old reply.old) }
    {
        let stepped = self.step_vendor(time, packet, message, reply);
        self.vendor.assembler = stepped.hid.assembler;
        self.vendor.lock = stepped.hid.lock;
        self.vendor.allocated = stepped.hid.allocated;
        self.vendor.locked = stepped.hid.locked;
        self.vendor.still_due = stepped.hid.still_due;
        self.main.hid.last = stepped.hid.last;
        stepped.answer
    }
}

// The last time as a step of main meets it, by vendor.
fn last_beside_vendor(key: Key) -> u64
    ensures { result ≡ last_beside (vendor_in key) 0 key.main.hid.lock }
{
    let main = key.main;
    let hid = main.hid;
    last_beside(vendor_of(key), 0, hid.lock)
}

fn last_beside_main(key: Key) -> u64
    ensures { result ≡ last_beside key.main.hid key.main.wink key.vendor.lock }
{
    let main = key.main;
    let vendor = key.vendor;
    last_beside(main.hid, main.wink, vendor.lock)
}

fn last_beside(other: CtapHid, wink: u64, lock: u64) -> u64
    ensures { result ≡ last_beside other wink lock }
{
    if is_fit(other, wink, lock) {
        return other.last;
    }
    NEVER
}

// A step that was refused leaves the last time that there was.
fn restored(last: u64, stepped: MainStepped) -> MainStepped
    ensures { result ≡ restored_of last stepped }
{
    let answer = stepped.answer;
    let main = stepped.hid;
    let mut hid = main.hid;
    if let Answer::Refused(_) = answer {
        hid.last = last;
    }
    MainStepped {
        hid: MainHid {
            hid,
            wink: main.wink,
        },
        answer,
    }
}
