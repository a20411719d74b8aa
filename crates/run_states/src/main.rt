// Steps from states that are not sound, each beside its sound neighbour; then the order of refusals, times and set-up.
// A line has the step's answer, the question's, and whether the state and both buffers are as they came: of the transport, then of
// the device. The packet always writes to a buffer, so a step that is taken alters something.
#![tactic(auto)]

use hid::{Answer, CtapHid, MainHid, MainReady, MessageAssembler, Ready, Running};
use packet::Limits;
use report::{hex, print, text};

// What is tried: a transport, or a device over it.
trait Tried: Copy {
    fn tried(
        self,
        time: u64,
        packet: &[u8],
        message: &mut [u8],
        reply: &mut [u8],
    ) -> (Self, Answer);

    fn asked(self, time: u64) -> Running;

    fn is_same(self, other: Self) -> bool;
}

impl Tried for CtapHid {
    fn tried(
        self,
        time: u64,
        packet: &[u8],
        message: &mut [u8],
        reply: &mut [u8],
    ) -> (Self, Answer) {
        let stepped = self.step(time, false, packet, message, reply);
        (stepped.hid, stepped.answer)
    }

    fn asked(self, time: u64) -> Running {
        self.is_locked_at(time)
    }

    fn is_same(self, other: Self) -> bool {
        same(self, other)
    }
}

impl Tried for MainHid {
    fn tried(
        self,
        time: u64,
        packet: &[u8],
        message: &mut [u8],
        reply: &mut [u8],
    ) -> (Self, Answer) {
        let stepped = self.step(time, false, packet, message, reply);
        (stepped.hid, stepped.answer)
    }

    fn asked(self, time: u64) -> Running {
        self.is_winking_at(time)
    }

    fn is_same(self, other: Self) -> bool {
        same(self.hid, other.hid) && self.wink == other.wink
    }
}

const LAST: u64 = 1000;

const TWO_TO_48: u64 = 0x1_0000_0000_0000;

fn main(rt: HostRuntime) {
    limits(&rt);
    deadlines(&rt);
    holders(&rt);
    messages(&rt);
    dues(&rt);
    channels(&rt);
    times(&rt);
    order(&rt);
    set_up(&rt, 7609, b"");
    set_up(&rt, 7610, b"");
    set_up(&rt, 7609, b"\x7f\x40\x7f");
    set_up(&rt, 7609, b"\x3f");
    set_up(&rt, 7609, b"\x80");
    set_up(&rt, 7609, b"\x40\x00\x7f");
    set_up(&rt, 7610, b"\x3f");
}

// Two channels, and no transaction or lock.
fn base() -> CtapHid {
    CtapHid {
        assembler: MessageAssembler {
            deadline: 0,
            cid: 0,
            len: 0,
            taken: 0,
            cmd: 0,
            seq: 0,
        },
        lock: 0,
        last: LAST,
        vendor: 0,
        allocated: 2,
        locked: 0,
        max: 200,
        u2f: 1,
        spare: 0,
        still_due: 0,
    }
}

// A PING on channel 2 whose first packet came at the last time. 3 continuations are still due.
fn transaction() -> MessageAssembler {
    MessageAssembler {
        deadline: LAST + 100,
        cid: 2,
        len: 200,
        taken: 57,
        cmd: 1,
        seq: 0,
    }
}

fn limits(rt: &impl Print) {
    let mut hid = base();
    let mut message = [0u8; 7610];
    hid.max = 7609;
    trial_with(rt, b"maximum 7,609", hid, 0, LAST, &mut message);
    hid.max = 7610;
    trial_with(rt, b"maximum 7,610", hid, 0, LAST, &mut message);
    hid = base();
    hid.allocated = 0xFFFF_FFFE;
    trial(rt, b"count FFFFFFFE", hid);
    hid.allocated = 0xFFFF_FFFF;
    trial(rt, b"count FFFFFFFF", hid);
    hid = base();
    hid.last = TWO_TO_48 - 1;
    trial(rt, b"last time 2^48 - 1", hid);
    hid.last = TWO_TO_48;
    trial(rt, b"last time 2^48", hid);
    hid = base();
    hid.vendor = 0xFFFF_FFFF_FFFF_FFFF;
    trial(rt, b"all vendor commands", hid);
    hid = base();
    hid.spare = 0xFF;
    trial(rt, b"any spare number", hid);
}

fn deadlines(rt: &impl Print) {
    let mut assembler = transaction();
    assembler.deadline = LAST + 100;
    trial_of(rt, b"transaction deadline 100 past", assembler, 3);
    assembler.deadline = LAST + 101;
    trial_of(rt, b"transaction deadline 101 past", assembler, 3);
    let mut hid = base();
    hid.locked = 1;
    hid.lock = LAST + 10000;
    trial(rt, b"lock deadline 10,000 past", hid);
    hid.lock = LAST + 10001;
    trial(rt, b"lock deadline 10,001 past", hid);
    let mut message = [0u8; 200];
    trial_with(
        rt,
        b"wink deadline 5,000 past",
        base(),
        LAST + 5000,
        LAST,
        &mut message,
    );
    trial_with(
        rt,
        b"wink deadline 5,001 past",
        base(),
        LAST + 5001,
        LAST,
        &mut message,
    );
}

fn holders(rt: &impl Print) {
    let mut hid = base();
    hid.lock = LAST + 1;
    hid.locked = 2;
    trial(rt, b"lock running, held by 2 of 2", hid);
    hid.locked = 3;
    trial(rt, b"lock running, held by 3 of 2", hid);
    hid.locked = 1;
    trial(rt, b"lock running, held by 1", hid);
    hid.locked = 0;
    trial(rt, b"lock running, held by 0", hid);
    hid.lock = LAST;
    trial(rt, b"lock over, held by 0", hid);
    hid.locked = 3;
    trial(rt, b"lock over, held by 3 of 2", hid);
}

fn messages(rt: &impl Print) {
    let mut assembler = transaction();
    assembler.cmd = 127;
    trial_of(rt, b"command 127", assembler, 3);
    assembler.cmd = 128;
    trial_of(rt, b"command 128", assembler, 3);
    assembler = transaction();
    assembler.len = 58;
    trial_of(rt, b"declared length 58", assembler, 1);
    assembler.len = 57;
    trial_of(rt, b"declared length 57", assembler, 0);
    assembler.len = 200;
    trial_of(rt, b"declared length 200 of 200", assembler, 3);
    assembler.len = 201;
    trial_of(rt, b"declared length 201 of 200", assembler, 3);
    assembler.seq = 1;
    assembler.taken = 116;
    assembler.len = 117;
    trial_of(rt, b"number 1, 116 taken of 117", assembler, 1);
    assembler.len = 116;
    trial_of(rt, b"number 1, 116 taken of 116", assembler, 0);
    assembler.len = 200;
    trial_of(rt, b"number 1, 116 taken", assembler, 2);
    assembler.taken = 115;
    trial_of(rt, b"number 1, 115 taken", assembler, 2);
    assembler.taken = 117;
    trial_of(rt, b"number 1, 117 taken", assembler, 2);
}

// 200 bytes are declared: 57 come first, and 59, 59 and 25 follow.
fn dues(rt: &impl Print) {
    let mut assembler = transaction();
    trial_of(rt, b"57 taken of 200, 3 due", assembler, 3);
    trial_of(rt, b"57 taken of 200, 4 due", assembler, 4);
    trial_of(rt, b"57 taken of 200, 2 due", assembler, 2);
    trial_of(rt, b"57 taken of 200, none due", assembler, 0);
    assembler.seq = 2;
    assembler.taken = 175;
    trial_of(rt, b"175 taken of 200, 1 due", assembler, 1);
    trial_of(rt, b"175 taken of 200, 2 due", assembler, 2);
    trial_of(rt, b"175 taken of 200, none due", assembler, 0);
    assembler.deadline = LAST;
    trial_of(rt, b"time over, 1 due", assembler, 1);
    trial_of(rt, b"time over, 2 due", assembler, 2);
    trial_of(rt, b"time over, none due", assembler, 0);
    let mut hid = base();
    hid.still_due = 1;
    trial(rt, b"no transaction, 1 due", hid);
    hid.still_due = 0xFFFF;
    trial(rt, b"no transaction, 65,535 due", hid);
}

fn channels(rt: &impl Print) {
    let mut assembler = transaction();
    assembler.cid = 2;
    trial_of(rt, b"transaction on 2 of 2", assembler, 3);
    assembler.cid = 3;
    trial_of(rt, b"transaction on 3 of 2", assembler, 3);
    assembler.cid = 1;
    trial_of(rt, b"transaction on 1", assembler, 3);
    assembler.cid = 0;
    trial_of(rt, b"transaction on 0", assembler, 3);
    assembler.cid = 0xFFFF_FFFF;
    assembler.cmd = 6;
    trial_of(rt, b"INIT on FFFFFFFF", assembler, 3);
    assembler.cmd = 1;
    trial_of(rt, b"PING on FFFFFFFF", assembler, 3);
    assembler.cmd = 127;
    trial_of(rt, b"command 127 on FFFFFFFF", assembler, 3);
    assembler.cid = 3;
    assembler.cmd = 6;
    trial_of(rt, b"INIT on 3 of 2", assembler, 3);
}

fn times(rt: &impl Print) {
    trial_at(rt, b"time as the last", base(), LAST);
    trial_at(rt, b"time one before the last", base(), LAST - 1);
    trial_at(rt, b"time 2^48 - 1", base(), TWO_TO_48 - 1);
    trial_at(rt, b"time 2^48", base(), TWO_TO_48);
}

fn order(rt: &impl Print) {
    let mut unsound = base();
    unsound.lock = LAST + 10001;
    text(rt, b"all four faults:");
    repairs(rt, unsound, base());
    text(rt, b"all four faults, the device:");
    repairs(rt, winking_until(LAST + 5001), winking_until(LAST));
}

fn winking_until(wink: u64) -> MainHid {
    MainHid { hid: base(), wink }
}

// One fault after the other is repaired: the packet, the message buffer, the reply buffer, the state, the time.
fn repairs<T: Tried>(rt: &impl Print, unsound: T, sound: T) {
    let early = LAST - 1;
    let mut message = [0u8; 200];
    let mut reply = [0u8; 17];
    let mut few = [0u8; 199];
    let mut short = [0u8; 16];
    let cut = [0u8; 63];
    let whole = [0u8; 64];
    show(rt, unsound.tried(early, &cut, &mut few, &mut short).1);
    show(rt, unsound.tried(early, &whole, &mut few, &mut short).1);
    show(rt, unsound.tried(early, &whole, &mut message, &mut short).1);
    show(rt, unsound.tried(early, &whole, &mut message, &mut reply).1);
    show(rt, sound.tried(early, &whole, &mut message, &mut reply).1);
    show(rt, sound.tried(LAST, &whole, &mut message, &mut reply).1);
    text(rt, b"\n");
}

fn set_up(rt: &impl Print, max: usize, vendor: &[u8]) {
    print(rt, format_args!("set-up with {max} and vendor commands \""));
    hex(rt, vendor);
    text(rt, b"\":");
    match CtapHid::new(max, true, vendor) {
        Ready::Hid(_) => text(rt, b" fresh"),
        Ready::Refused(number) => refused(rt, number),
    }
    match MainHid::new(max, true, vendor) {
        MainReady::Hid(_) => text(rt, b" fresh"),
        MainReady::Refused(number) => refused(rt, number),
    }
    text(rt, b"\n");
}

// A transaction, and how many continuations are said to be still due.
fn trial_of(rt: &impl Print, name: &[u8], assembler: MessageAssembler, due: u16) {
    let mut hid = base();
    hid.assembler = assembler;
    hid.still_due = due;
    trial(rt, name, hid);
}

fn trial(rt: &impl Print, name: &[u8], hid: CtapHid) {
    trial_at(rt, name, hid, hid.last);
}

fn trial_at(rt: &impl Print, name: &[u8], hid: CtapHid, time: u64) {
    let mut message = [0u8; 200];
    trial_with(rt, name, hid, 0, time, &mut message);
}

// The packet is a PING of two bytes on channel 1.
fn trial_with(
    rt: &impl Print,
    name: &[u8],
    hid: CtapHid,
    wink: u64,
    time: u64,
    message: &mut [u8],
) {
    text(rt, name);
    text(rt, b":");
    trial_on(rt, hid, time, message);
    text(rt, b";");
    trial_on(rt, MainHid { hid, wink }, time, message);
    text(rt, b"\n");
}

fn trial_on(rt: &impl Print, fresh: impl Tried, time: u64, message: &mut [u8]) {
    let mut packet = [0u8; Limits::PACKET_SIZE];
    let mut reply = [0u8; Limits::SHORT_REPLY_SIZE];
    packet[..9].copy_from_slice(b"\x00\x00\x00\x01\x81\x00\x02\xab\xcd");
    fill(message);
    fill(&mut reply);
    let (after, answer) = fresh.tried(time, &packet, message, &mut reply);
    show(rt, answer);
    say(rt, fresh.asked(time));
    as_it_came(
        rt,
        fresh.is_same(after) && is_filled(message) && is_filled(&reply),
    );
}

fn fill(buffer: &mut [u8]) {
    for (i, byte) in buffer.iter_mut().enumerate() {
        *byte = (i % 251) as u8;
    }
}

fn is_filled(buffer: &[u8]) -> bool {
    buffer
        .iter()
        .enumerate()
        .all(|(i, byte)| *byte == (i % 251) as u8)
}

fn same(a: CtapHid, b: CtapHid) -> bool {
    same_assembler(a.assembler, b.assembler)
        && a.lock == b.lock
        && a.last == b.last
        && a.allocated == b.allocated
        && a.locked == b.locked
        && a.max == b.max
        && a.u2f == b.u2f
        && a.vendor == b.vendor
        && a.spare == b.spare
        && a.still_due == b.still_due
}

fn same_assembler(a: MessageAssembler, b: MessageAssembler) -> bool {
    a.deadline == b.deadline
        && a.cid == b.cid
        && a.len == b.len
        && a.taken == b.taken
        && a.cmd == b.cmd
        && a.seq == b.seq
}

// As in run_key, with say and refused: one function for both would be public, and no contract can speak of what it writes.
fn show(rt: &impl Print, answer: Answer) {
    if let Answer::Refused(number) = answer {
        refused(rt, number);
    } else {
        text(rt, b" taken");
    }
}

fn say(rt: &impl Print, running: Running) {
    match running {
        Running::Yes => text(rt, b" yes"),
        Running::No => text(rt, b" no"),
        Running::Refused(number) => refused(rt, number),
    }
}

fn refused(rt: &impl Print, number: u8) {
    print(rt, format_args!(" refused {number}"));
}

fn as_it_came(rt: &impl Print, unaltered: bool) {
    if unaltered {
        text(rt, b" all as it came");
    } else {
        text(rt, b" ALTERED");
    }
}
