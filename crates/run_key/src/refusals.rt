// The order of refusals on each interface, by keys that are not sound for one or the other, and whose buffers count.
use crate::printing::{running, show};
use crate::states::{LAST, key_of, key_with, locked_until, own};
use crate::stepping::{Side, step};
use key::Key;
use report::{print, text};

pub(crate) fn all(rt: &impl Print) {
    let mut hid = own();
    hid.still_due = 1;
    faulty(rt, b"main isn't sound", key_of(hid, own()));
    faulty(rt, b"vendor isn't sound", key_of(own(), hid));
    faulty(rt, b"two locks run", locked_until(LAST + 1, LAST + 1));
    buffers(rt);
    hid = own();
    hid.max = 7610;
    too_large(rt, b"main has a maximum of 7,610", key_of(hid, own()));
    too_large(rt, b"vendor has a maximum of 7,610", key_of(own(), hid));
}

fn faulty(rt: &impl Print, name: &[u8], unsound: Key) {
    for (interface, side) in SIDES {
        text(rt, name);
        print(rt, format_args!(", all four faults, {interface}:"));
        repairs(rt, side, unsound);
    }
    text(rt, name);
    text(rt, b", both faults, asked:");
    running(rt, unsound, LAST - 1);
    text(rt, b";");
    running(rt, key_of(own(), own()), LAST - 1);
    text(rt, b"\n");
}

const SIDES: [(&str, Side); 2] = [("main", Side::Main), ("vendor", Side::Vendor)];

// One fault after the other is repaired: the packet, the message buffer, the reply buffer, the state, the time.
fn repairs(rt: &impl Print, side: Side, unsound: Key) {
    let sound = key_of(own(), own());
    let early = LAST - 1;
    let mut message = [0u8; 200];
    let mut reply = [0u8; 17];
    let mut few = [0u8; 199];
    let mut short = [0u8; 16];
    let cut = [0u8; 63];
    let whole = [0u8; 64];
    answered(rt, side, unsound, early, &cut, &mut few, &mut short);
    answered(rt, side, unsound, early, &whole, &mut few, &mut short);
    answered(rt, side, unsound, early, &whole, &mut message, &mut short);
    answered(rt, side, unsound, early, &whole, &mut message, &mut reply);
    answered(rt, side, sound, early, &whole, &mut message, &mut reply);
    answered(rt, side, sound, LAST, &whole, &mut message, &mut reply);
    text(rt, b"\n");
}

// The other interface's maximum is 300.
fn buffers(rt: &impl Print) {
    for (small, side) in SIDES {
        let key = key_with(side, own());
        lent(rt, small, "main", Side::Main, key);
        lent(rt, small, "vendor", Side::Vendor, key);
    }
}

fn lent(rt: &impl Print, small: &str, interface: &str, side: Side, key: Key) {
    print(
        rt,
        format_args!(
            "message buffers of 199, 200, 299, 300; a maximum of 200 on {small}, {interface}:"
        ),
    );
    given(rt, side, key, &mut [0u8; 199]);
    given(rt, side, key, &mut [0u8; 200]);
    given(rt, side, key, &mut [0u8; 299]);
    given(rt, side, key, &mut [0u8; 300]);
    text(rt, b"\n");
}

// A buffer that is too short for the other interface leaves refusal 3.
fn too_large(rt: &impl Print, name: &[u8], key: Key) {
    text(rt, name);
    text(rt, b", message buffers of 7,609:");
    given(rt, Side::Main, key, &mut [0u8; 7609]);
    given(rt, Side::Vendor, key, &mut [0u8; 7609]);
    text(rt, b"\n");
}

fn given(rt: &impl Print, side: Side, key: Key, message: &mut [u8]) {
    let mut reply = [0u8; 17];
    answered(rt, side, key, LAST, &[0u8; 64], message, &mut reply);
}

fn answered(
    rt: &impl Print,
    side: Side,
    key: Key,
    time: u64,
    packet: &[u8],
    message: &mut [u8],
    reply: &mut [u8],
) {
    show(rt, step(side, key, time, packet, message, reply).answer);
}
