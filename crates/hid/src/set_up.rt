// Set-up: no channel, no transaction, lock or wink.
ghost use Rattle.std.specs.Prelude.{◌≡◌};
ghost use Rattle.hid.specs.SetUp.{fresh_with, new_of, main_new_of};

use crate::{CtapHid, MainHid, MainReady, MessageAssembler, Ready};
use known::Listed;
use packet::{Limits, Refusal};

impl CtapHid {
    // A fresh transport, with the numbers of the vendor commands that it knows. A maximum above 7,609 is refused with 5, then a number that isn't the vendor's
    // with 13.
    pub fn new(max: usize, u2f: bool, vendor: &[u8]) -> Ready
        ensures { result ≡ new_of max u2f vendor.now }
    {
        if max > Limits::LARGEST_PAYLOAD {
            return Ready::Refused(Refusal::MAXIMUM);
        }
        match known::read_list(vendor) {
            Listed::Bits(bits) => Ready::Hid(fresh(max as u32, u2f, bits)),
            Listed::Foreign => Ready::Refused(Refusal::VENDOR),
        }
    }
}

impl MainHid {
    // A fresh device, over such a transport.
    pub fn new(max: usize, u2f: bool, vendor: &[u8]) -> MainReady
        ensures { result ≡ main_new_of max u2f vendor.now }
    {
        match CtapHid::new(max, u2f, vendor) {
            Ready::Hid(hid) => MainReady::Hid(MainHid { hid, wink: 0 }),
            Ready::Refused(number) => MainReady::Refused(number),
        }
    }
}

fn fresh(max: u32, u2f: bool, vendor: u64) -> CtapHid
    ensures { result ≡ fresh_with max u2f vendor }
{
    let assembler = MessageAssembler::new();
    CtapHid {
        assembler,
        lock: 0,
        last: 0,
        vendor,
        allocated: 0,
        locked: 0,
        max,
        u2f: u2f as u8,
        spare: 0,
        still_due: 0,
    }
}
