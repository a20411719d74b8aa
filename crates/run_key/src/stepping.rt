// A step on either interface, by value, and the key as it leaves it.
use hid::{Answer, CtapHid, MainHid, MessageAssembler};
use key::{Key, VendorHid};

#[derive(Clone, Copy)]
pub(crate) enum Side {
    Main,
    Vendor,
}

#[derive(Clone, Copy)]
pub(crate) struct KeyStepped {
    pub(crate) key: Key,
    pub(crate) answer: Answer,
}

pub(crate) fn step(
    side: Side,
    key: Key,
    time: u64,
    packet: &[u8],
    message: &mut [u8],
    reply: &mut [u8],
) -> KeyStepped {
    match side {
        Side::Main => {
            let stepped = key.step_main(time, packet, message, reply);
            KeyStepped {
                key: Key {
                    main: stepped.hid,
                    ..key
                },
                answer: stepped.answer,
            }
        }
        Side::Vendor => {
            let stepped = key.step_vendor(time, packet, message, reply);
            KeyStepped {
                key: with_vendor(key, stepped.hid),
                answer: stepped.answer,
            }
        }
    }
}

// All that vendor's step gives back is laid down, so that one that alters more than the last time of what is shared is seen.
fn with_vendor(key: Key, stepped: CtapHid) -> Key {
    let mut next = key;
    next.main.hid.last = stepped.last;
    next.main.hid.vendor = stepped.vendor;
    next.main.hid.u2f = stepped.u2f;
    next.main.hid.spare = stepped.spare;
    next.vendor = VendorHid {
        spare: key.vendor.spare,
        ..vendor_part(stepped)
    };
    next
}

// What of a transport is vendor's own.
pub(crate) fn vendor_part(hid: CtapHid) -> VendorHid {
    VendorHid {
        assembler: hid.assembler,
        lock: hid.lock,
        allocated: hid.allocated,
        locked: hid.locked,
        max: hid.max,
        spare: 0,
        still_due: hid.still_due,
    }
}

pub(crate) fn is_same(a: Key, b: Key) -> bool {
    is_same_main(a.main, b.main) && is_same_vendor(a.vendor, b.vendor)
}

// Maxima, U2F, the vendor commands and the spare numbers.
pub(crate) fn is_set_same(a: Key, b: Key) -> bool {
    a.main.hid.max == b.main.hid.max
        && a.main.hid.u2f == b.main.hid.u2f
        && a.main.hid.vendor == b.main.hid.vendor
        && a.main.hid.spare == b.main.hid.spare
        && a.vendor.max == b.vendor.max
        && a.vendor.spare == b.vendor.spare
}

fn is_same_main(a: MainHid, b: MainHid) -> bool {
    is_same_hid(a.hid, b.hid) && a.wink == b.wink
}

fn is_same_hid(a: CtapHid, b: CtapHid) -> bool {
    is_same_vendor(vendor_part(a), vendor_part(b))
        && a.last == b.last
        && a.vendor == b.vendor
        && a.u2f == b.u2f
        && a.spare == b.spare
}

fn is_same_vendor(a: VendorHid, b: VendorHid) -> bool {
    is_same_assembler(a.assembler, b.assembler)
        && a.lock == b.lock
        && a.allocated == b.allocated
        && a.locked == b.locked
        && a.max == b.max
        && a.spare == b.spare
        && a.still_due == b.still_due
}

fn is_same_assembler(a: MessageAssembler, b: MessageAssembler) -> bool {
    a.deadline == b.deadline
        && a.cid == b.cid
        && a.len == b.len
        && a.taken == b.taken
        && a.cmd == b.cmd
        && a.seq == b.seq
}
