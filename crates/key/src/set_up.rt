// Set-up: no channel, no transaction, lock or wink, on either interface.
ghost use Rattle.std.specs.Prelude.{◌≡◌};
ghost use Rattle.key.specs.SetUp.{fresh_vendor, key_new_of};

use crate::{Key, KeyReady, VendorHid};
use hid::{MainHid, MainReady, MessageAssembler};
use packet::{Limits, Refusal};

impl Key {
    // A fresh key, with a maximum for each interface, and the numbers of the vendor commands that both know. A maximum above 7,609 is refused with 5, then a number
    // that isn't the vendor's with 13.
    pub fn new(main: usize, vendor: usize, u2f: bool, commands: &[u8]) -> KeyReady
        ensures { result ≡ key_new_of main vendor u2f commands.now }
    {
        if vendor > Limits::LARGEST_PAYLOAD {
            return KeyReady::Refused(Refusal::MAXIMUM);
        }
        match MainHid::new(main, u2f, commands) {
            MainReady::Hid(hid) => KeyReady::Key(Key {
                main: hid,
                vendor: fresh_vendor(vendor as u32),
            }),
            MainReady::Refused(number) => KeyReady::Refused(number),
        }
    }
}

fn fresh_vendor(max: u32) -> VendorHid
    ensures { result ≡ fresh_vendor max }
{
    let assembler = MessageAssembler::new();
    VendorHid {
        assembler,
        lock: 0,
        allocated: 0,
        locked: 0,
        max,
        spare: 0,
        still_due: 0,
    }
}
