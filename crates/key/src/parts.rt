// Vendor as the transport that it is.
ghost use Rattle.std.specs.Prelude.{◌≡◌};
ghost use Rattle.key.specs.Meaning.{vendor_in, vendor_by};

use crate::{Key, VendorHid};
use hid::CtapHid;

pub(crate) fn vendor_of(key: Key) -> CtapHid
    ensures { result ≡ vendor_in key }
{
    let main = key.main;
    let hid = main.hid;
    let mut vendor = vendor_by(key.vendor, hid.last);
    vendor.vendor = hid.vendor;
    vendor.u2f = hid.u2f;
    vendor.spare = hid.spare;
    vendor
}

// With the last time alone of what is shared: all that soundness looks at.
pub(crate) fn vendor_by(vendor: VendorHid, last: u64) -> CtapHid
    ensures { result ≡ vendor_by vendor last }
{
    let assembler = vendor.assembler;
    CtapHid {
        assembler,
        lock: vendor.lock,
        last,
        vendor: 0,
        allocated: vendor.allocated,
        locked: vendor.locked,
        max: vendor.max,
        u2f: 0,
        spare: 0,
        still_due: vendor.still_due,
    }
}
