// Keys with one interface as it is said to be, and the other one sound.
use crate::stepping::{Side, vendor_part};
use hid::{CtapHid, MainHid, MessageAssembler};
use key::Key;

pub(crate) const LAST: u64 = 1000;

// The interface that is looked at: two channels and a maximum of 200, and no transaction or lock.
pub(crate) fn own() -> CtapHid {
    idle(2, 200)
}

// The other one has more of both: what only that one allows isn't sound here.
fn other() -> CtapHid {
    idle(4, 300)
}

fn idle(allocated: u32, max: u32) -> CtapHid {
    CtapHid {
        assembler: MessageAssembler {
            deadline: 0,
            cid: 0,
            len: 0,
            taken: 0,
            cmd: 0,
            seq: 0,
        },
        lock: 0,
        last: LAST,
        vendor: 0,
        allocated,
        locked: 0,
        max,
        u2f: 1,
        spare: 0,
        still_due: 0,
    }
}

// A PING on channel 2 whose first packet came at the last time. 3 continuations are still due.
pub(crate) fn transaction() -> MessageAssembler {
    MessageAssembler {
        deadline: LAST + 100,
        cid: 2,
        len: 200,
        taken: 57,
        cmd: 1,
        seq: 0,
    }
}

pub(crate) fn key_with(side: Side, hid: CtapHid) -> Key {
    let beside = CtapHid {
        last: hid.last,
        ..other()
    };
    match side {
        Side::Main => key_of(hid, beside),
        Side::Vendor => key_of(beside, hid),
    }
}

// Of vendor's transport only what is its own.
pub(crate) fn key_of(main: CtapHid, vendor: CtapHid) -> Key {
    Key {
        main: MainHid { hid: main, wink: 0 },
        vendor: vendor_part(vendor),
    }
}

// A sound key whose locks have these deadlines, each held by channel 1.
pub(crate) fn locked_until(main: u64, vendor: u64) -> Key {
    let held = |lock| CtapHid {
        locked: 1,
        lock,
        ..own()
    };
    key_of(held(main), held(vendor))
}
