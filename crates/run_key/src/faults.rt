// States that are not sound, each beside its sound neighbour, by the list of docs/RULES.md: each fault on main, then on vendor. A line has for a step on main, then
// for one on vendor, the answer and whether the key and both buffers are as they came; then the three questions. The packet always writes to a buffer, so a
// step that is taken alters something.
use crate::printing::{running, show};
use crate::states::{LAST, key_of, key_with, locked_until, own, transaction};
use crate::stepping::{Side, is_same, is_set_same, step};
use hid::{CtapHid, MessageAssembler};
use key::Key;
use packet::Limits;
use report::text;

const TWO_TO_48: u64 = 0x1_0000_0000_0000;

// Every byte of a buffer as it comes: no packet here has it, and no reply.
const UNWRITTEN: u8 = 0xA5;

// How long a message buffer is for a maximum that is too large.
const LONG: usize = 7610;

// The longest buffer, as it comes.
const CAME: &[u8] = &[UNWRITTEN; LONG];

pub(crate) fn all(rt: &impl Print) {
    limits(rt);
    shared(rt);
    deadlines(rt);
    winks(rt);
    holders(rt);
    messages(rt);
    dues(rt);
    channels(rt);
    locks(rt);
    times(rt);
}

fn limits(rt: &impl Print) {
    each(rt, b"nothing on", own());
    let mut hid = own();
    hid.max = 7609;
    each_with(rt, b"maximum 7,609", hid, &mut [0; LONG]);
    hid.max = 7610;
    each_with(rt, b"maximum 7,610", hid, &mut [0; LONG]);
    hid = own();
    hid.allocated = 0xFFFF_FFFE;
    each(rt, b"count FFFFFFFE", hid);
    hid.allocated = 0xFFFF_FFFF;
    each(rt, b"count FFFFFFFF", hid);
}

// What both have, and the spare number that each has.
fn shared(rt: &impl Print) {
    let mut hid = own();
    hid.last = TWO_TO_48 - 1;
    trial(rt, b"last time 2^48 - 1", key_of(hid, own()), hid.last);
    hid.last = TWO_TO_48;
    trial(rt, b"last time 2^48", key_of(hid, own()), hid.last);
    hid = own();
    hid.vendor = 0xFFFF_FFFF_FFFF_FFFF;
    trial(rt, b"all vendor commands", key_of(hid, own()), LAST);
    hid = own();
    hid.spare = 0xFF;
    let mut key = key_of(hid, own());
    key.vendor.spare = 0xFFFF;
    trial(rt, b"any spare numbers", key, LAST);
    trial(
        rt,
        b"any spare numbers, time one before the last",
        key,
        LAST - 1,
    );
}

fn deadlines(rt: &impl Print) {
    let mut assembler = transaction();
    assembler.deadline = LAST + 100;
    each_of(rt, b"transaction deadline 100 past", assembler, 3);
    assembler.deadline = LAST + 101;
    each_of(rt, b"transaction deadline 101 past", assembler, 3);
    assembler.len = 0;
    each_of(rt, b"no transaction, deadline 101 past", assembler, 0);
    assembler.deadline = LAST + 100;
    each_of(rt, b"no transaction, deadline 100 past", assembler, 0);
    let mut hid = own();
    hid.locked = 1;
    hid.lock = LAST + 10000;
    each(rt, b"lock deadline 10,000 past", hid);
    hid.lock = LAST + 10001;
    each(rt, b"lock deadline 10,001 past", hid);
}

// The wink is main's alone.
fn winks(rt: &impl Print) {
    let mut key = key_of(own(), own());
    key.main.wink = LAST + 5000;
    trial(rt, b"wink deadline 5,000 past", key, LAST);
    key.main.wink = LAST + 5001;
    trial(rt, b"wink deadline 5,001 past", key, LAST);
}

fn holders(rt: &impl Print) {
    let mut hid = own();
    hid.lock = LAST + 1;
    hid.locked = 2;
    each(rt, b"lock running, held by 2 of 2", hid);
    hid.locked = 3;
    each(rt, b"lock running, held by 3 of 2", hid);
    hid.locked = 0;
    each(rt, b"lock running, held by 0", hid);
    hid.lock = LAST;
    each(rt, b"lock over, held by 0", hid);
    hid.locked = 3;
    each(rt, b"lock over, held by 3 of 2", hid);
}

fn messages(rt: &impl Print) {
    let mut assembler = transaction();
    assembler.cmd = 127;
    each_of(rt, b"command 127", assembler, 3);
    assembler.cmd = 128;
    each_of(rt, b"command 128", assembler, 3);
    assembler = transaction();
    assembler.len = 58;
    each_of(rt, b"declared length 58", assembler, 1);
    assembler.len = 57;
    each_of(rt, b"declared length 57", assembler, 0);
    assembler.len = 200;
    each_of(rt, b"declared length 200 of 200", assembler, 3);
    assembler.len = 201;
    each_of(rt, b"declared length 201 of 200", assembler, 3);
    assembler.seq = 1;
    assembler.taken = 116;
    assembler.len = 117;
    each_of(rt, b"number 1, 116 taken of 117", assembler, 1);
    assembler.len = 116;
    each_of(rt, b"number 1, 116 taken of 116", assembler, 0);
    assembler.len = 200;
    each_of(rt, b"number 1, 116 taken", assembler, 2);
    assembler.taken = 115;
    each_of(rt, b"number 1, 115 taken", assembler, 2);
    assembler.taken = 117;
    each_of(rt, b"number 1, 117 taken", assembler, 2);
}

// 200 bytes are declared: 57 come first, and 59, 59 and 25 follow.
fn dues(rt: &impl Print) {
    let mut assembler = transaction();
    each_of(rt, b"57 taken of 200, 2 due", assembler, 2);
    each_of(rt, b"57 taken of 200, 4 due", assembler, 4);
    each_of(rt, b"57 taken of 200, none due", assembler, 0);
    assembler.deadline = LAST;
    each_of(rt, b"time over, 3 due", assembler, 3);
    each_of(rt, b"time over, none due", assembler, 0);
    let mut hid = own();
    hid.still_due = 1;
    each(rt, b"no transaction, 1 due", hid);
}

fn channels(rt: &impl Print) {
    let mut assembler = transaction();
    assembler.cid = 2;
    each_of(rt, b"transaction on 2 of 2", assembler, 3);
    assembler.cid = 3;
    each_of(rt, b"transaction on 3 of 2", assembler, 3);
    assembler.cid = 0;
    each_of(rt, b"transaction on 0", assembler, 3);
    assembler.cid = 0xFFFF_FFFF;
    assembler.cmd = 6;
    each_of(rt, b"INIT on FFFFFFFF", assembler, 3);
    assembler.cmd = 1;
    each_of(rt, b"PING on FFFFFFFF", assembler, 3);
    assembler.cid = 3;
    assembler.cmd = 6;
    each_of(rt, b"INIT on 3 of 2", assembler, 3);
}

// Two of them are judged at the last time, also where a step comes when they are over.
fn locks(rt: &impl Print) {
    let past = LAST + 1;
    trial(rt, b"both locks running", locked_until(past, past), LAST);
    trial(
        rt,
        b"both locks running, asked when over",
        locked_until(past, past),
        past,
    );
    trial(
        rt,
        b"main's lock running, vendor's over",
        locked_until(past, LAST),
        LAST,
    );
    trial(
        rt,
        b"main's lock over, vendor's running",
        locked_until(LAST, past),
        LAST,
    );
    trial(rt, b"both locks over", locked_until(LAST, LAST), LAST);
}

fn times(rt: &impl Print) {
    let key = key_of(own(), own());
    trial(rt, b"time as the last", key, LAST);
    trial(rt, b"time one before the last", key, LAST - 1);
    trial(rt, b"time 2^48 - 1", key, TWO_TO_48 - 1);
    trial(rt, b"time 2^48", key, TWO_TO_48);
}

// A transaction, and how many continuations are said to be still due.
fn each_of(rt: &impl Print, name: &[u8], assembler: MessageAssembler, due: u16) {
    let mut hid = own();
    hid.assembler = assembler;
    hid.still_due = due;
    each(rt, name, hid);
}

fn each(rt: &impl Print, name: &[u8], hid: CtapHid) {
    each_with(rt, name, hid, &mut [0; 300]);
}

fn each_with(rt: &impl Print, name: &[u8], hid: CtapHid, message: &mut [u8]) {
    text(rt, b"main: ");
    trial_with(rt, name, key_with(Side::Main, hid), LAST, message);
    text(rt, b"vendor: ");
    trial_with(rt, name, key_with(Side::Vendor, hid), LAST, message);
}

fn trial(rt: &impl Print, name: &[u8], key: Key, time: u64) {
    trial_with(rt, name, key, time, &mut [0; 300]);
}

fn trial_with(rt: &impl Print, name: &[u8], key: Key, time: u64, message: &mut [u8]) {
    text(rt, name);
    text(rt, b":");
    tried(rt, Side::Main, key, time, message);
    text(rt, b";");
    tried(rt, Side::Vendor, key, time, message);
    text(rt, b";");
    running(rt, key, time);
    text(rt, b"\n");
}

// The packet is a PING of two bytes on channel 1.
fn tried(rt: &impl Print, side: Side, key: Key, time: u64, message: &mut [u8]) {
    let mut packet = [0u8; Limits::PACKET_SIZE];
    let mut reply = [UNWRITTEN; Limits::SHORT_REPLY_SIZE];
    packet[..9].copy_from_slice(b"\x00\x00\x00\x01\x81\x00\x02\xab\xcd");
    message.fill(UNWRITTEN);
    let stepped = step(side, key, time, &packet, message, &mut reply);
    show(rt, stepped.answer);
    let unwritten = is_unwritten(message) && is_unwritten(&reply);
    as_it_came(rt, unwritten, key, stepped.key);
}

// Compared as a whole, which takes far fewer instructions than a look at each byte.
fn is_unwritten(buffer: &[u8]) -> bool {
    CAME.get(..buffer.len()) == Some(buffer)
}

// No step alters the settings or a spare number.
fn as_it_came(rt: &impl Print, unwritten: bool, before: Key, after: Key) {
    if unwritten && is_same(before, after) {
        text(rt, b" all as it came");
    } else if is_set_same(before, after) {
        text(rt, b" ALTERED");
    } else {
        text(rt, b" SETTINGS ALTERED");
    }
}
