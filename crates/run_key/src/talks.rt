// Conversations over both interfaces. A line has the time, the interface, the packet's front and the answer: its payload where it has one.
use crate::printing::running;
use crate::stepping::{Side, step};
use hid::Answer;
use key::Key;
use packet::Limits;
use report::{hex, print, text};

// What is printed to, and the key as the last step left it.
#[derive_where(Clone, Copy)]
struct Talk<'a, R> {
    rt: &'a R,
    key: Key,
}

// Each begins with two channels on each interface, and the last time at 0.
pub(crate) fn all(rt: &impl Print, fresh: Key) {
    text(rt, b"each interface has its own channels, from 1 on\n");
    let talk = Talk { rt, key: fresh }.opened();
    text(rt, b"a lock on vendor turns main away\n");
    talk.turned_away(Side::Vendor, Side::Main);
    text(rt, b"a lock on main turns vendor away\n");
    talk.turned_away(Side::Main, Side::Vendor);
    text(rt, b"a lock that is given up on vendor\n");
    talk.freed(Side::Vendor, Side::Main);
    text(rt, b"a lock that is given up on main\n");
    talk.freed(Side::Main, Side::Vendor);
    text(rt, b"what leaves a wink, and what ends it\n");
    talk.winked();
    text(rt, b"one last time\n");
    talk.early(Side::Main, Side::Vendor);
    talk.early(Side::Vendor, Side::Main);
    text(rt, b"messages half sent\n");
    talk.half_sent(Side::Main, Side::Vendor);
    talk.half_sent(Side::Vendor, Side::Main);
    text(rt, b"a message that the other interface's lock hinders\n");
    talk.hindered(Side::Main, Side::Vendor);
    talk.hindered(Side::Vendor, Side::Main);
    text(rt, b"with U2F and vendor command 40\n");
    talk.handed_out(Side::Main);
    talk.handed_out(Side::Vendor);
    text(rt, b"maxima of 7,609 and 64\n");
    talk.long(Side::Main);
    talk.long(Side::Vendor);
}

pub(crate) fn plain(rt: &impl Print, fresh: Key) {
    text(rt, b"without U2F\n");
    let mut talk = Talk { rt, key: fresh };
    talk.hear(0, Side::Main, b"\xff\xff\xff\xff\x86\x00\x08");
    talk.hear(0, Side::Vendor, b"\xff\xff\xff\xff\x86\x00\x08");
    talk.handed_out(Side::Main);
    talk.handed_out(Side::Vendor);
}

impl<R: Print> Talk<'_, R> {
    fn opened(mut self) -> Self {
        self.asked(0);
        self.hear(0, Side::Main, b"\xff\xff\xff\xff\x86\x00\x08");
        self.hear(0, Side::Vendor, b"\xff\xff\xff\xff\x86\x00\x08");
        self.hear(0, Side::Main, b"\xff\xff\xff\xff\x86\x00\x08");
        self.hear(0, Side::Main, b"\x00\x00\x00\x02\x81\x00\x01\xaa");
        self.hear(0, Side::Vendor, b"\x00\x00\x00\x02\x81\x00\x01\xaa");
        self.hear(0, Side::Vendor, b"\x00\x00\x00\x01\x81\x00\x01\xaa");
        self.hear(0, Side::Vendor, b"\xff\xff\xff\xff\x86\x00\x08");
        self
    }

    // A LOCK of 10 seconds: PING, a continuation, a broadcast INIT and a LOCK, but a channel that isn't valid is told so first. The holder is served.
    fn turned_away(mut self, holder: Side, away: Side) {
        self.hear(20, holder, b"\x00\x00\x00\x01\x84\x00\x01\x0a");
        self.asked(20);
        self.hear(30, away, b"\x00\x00\x00\x01\x81\x00\x01\xaa");
        self.hear(30, away, b"\x00\x00\x00\x02\x81\x00\x01\xaa");
        self.hear(31, away, b"\x00\x00\x00\x01\x00");
        self.hear(31, away, b"\xff\xff\xff\xff\x86\x00\x08");
        self.hear(31, away, b"\x00\x00\x00\x01\x84\x00\x01\x0a");
        self.hear(31, away, b"\x00\x00\x00\x03\x81\x00\x01\xaa");
        self.hear(31, away, b"\x00\x00\x00\x03\x00");
        self.hear(32, holder, b"\x00\x00\x00\x01\x81\x00\x01\xbb");
        self.hear(32, holder, b"\x00\x00\x00\x02\x81\x00\x01\xbb");
        self.hear(10019, away, b"\x00\x00\x00\x01\x81\x00\x01\xaa");
        self.asked(10019);
        self.asked(10020);
        self.hear(10020, away, b"\x00\x00\x00\x01\x81\x00\x01\xaa");
    }

    // The one that was turned away then locks for a second.
    fn freed(mut self, holder: Side, away: Side) {
        self.hear(2, holder, b"\x00\x00\x00\x01\x84\x00\x01\x01");
        self.hear(3, away, b"\x00\x00\x00\x01\x81\x00\x01\xaa");
        self.hear(3, holder, b"\x00\x00\x00\x01\x84\x00\x01\x00");
        self.asked(3);
        self.hear(3, away, b"\x00\x00\x00\x01\x81\x00\x01\xaa");
        self.hear(3, away, b"\x00\x00\x00\x01\x84\x00\x01\x01");
        self.asked(3);
        self.hear(1002, holder, b"\x00\x00\x00\x01\x81\x00\x01\xaa");
        self.hear(1003, holder, b"\x00\x00\x00\x01\x81\x00\x01\xaa");
    }

    fn winked(mut self) {
        self.hear(2, Side::Vendor, b"\x00\x00\x00\x01\x88\x00\x00");
        self.asked(2);
        self.hear(3, Side::Main, b"\x00\x00\x00\x01\x88\x00\x00");
        self.asked(3);
        self.left();
        self.asked(5002);
        self.asked(5003);
        self.hear(5, Side::Main, b"\x00\x00\x00\x01\x81\x00\x01\xaa");
        self.asked(5);
        self.hear(6, Side::Main, b"\x00\x00\x00\x01\x88\x00\x00");
        self.hear(7, Side::Main, b"\x00\x00\x00\x01\x88\x00\x01\x09");
        self.asked(7);
        self.hear(8, Side::Main, b"\x00\x00\x00\x01\x88\x00\x00");
        self.hear(9, Side::Vendor, b"\x00\x00\x00\x01\x84\x00\x01\x0a");
        self.asked(9);
        self.hear(10, Side::Main, b"\x00\x00\x00\x01\x81\x00\x01\xaa");
        self.asked(10);
    }

    // What on main would end a wink, on vendor: an error reply, an echo, a message that is handed out, and replies.
    fn left(&mut self) {
        self.hear(4, Side::Vendor, b"\x00\x00\x00\x01\x88\x00\x00");
        self.asked(4);
        self.hear(4, Side::Vendor, b"\x00\x00\x00\x01\x88\x00\x01\x09");
        self.hear(4, Side::Vendor, b"\x00\x00\x00\x01\x81\x00\x01\xaa");
        self.asked(4);
        self.hear(4, Side::Vendor, b"\x00\x00\x00\x01\x83\x00\x01\x09");
        self.hear(4, Side::Vendor, b"\x00\x00\x00\x01\x86\x00\x08");
        self.hear(4, Side::Vendor, b"\x00\x00\x00\x09\x81\x00\x01\xaa");
    }

    // A time before the other interface's last, which a refused step leaves as it was.
    fn early(mut self, one: Side, another: Side) {
        self.hear(100, one, b"\x00\x00\x00\x01\x81\x00\x01\xaa");
        self.hear(99, another, b"\x00\x00\x00\x01\x81\x00\x01\xaa");
        self.asked(99);
        self.hear(99, one, b"\x00\x00\x00\x01\x81\x00\x01\xaa");
        self.asked(100);
        self.hear(100, another, b"\x00\x00\x00\x01\x81\x00\x01\xaa");
    }

    // PING in two packets on one, and a PING and a continuation on the other meanwhile. Each has a message buffer of its own.
    fn half_sent(mut self, one: Side, another: Side) {
        let mut message = [0u8; Limits::LARGEST_PAYLOAD];
        self.hear_in(0, one, b"\x00\x00\x00\x01\x81\x00\x3c\xaa", &mut message);
        self.hear(1, another, b"\x00\x00\x00\x01\x81\x00\x01\xcc");
        self.hear(2, another, b"\x00\x00\x00\x01\x00");
        self.hear_in(99, one, b"\x00\x00\x00\x01\x00\xbb", &mut message);
    }

    // Its continuation is turned away, and its time is over when the lock is.
    fn hindered(mut self, one: Side, another: Side) {
        self.hear(5, one, b"\x00\x00\x00\x01\x81\x00\x3c\xaa");
        self.hear(50, another, b"\x00\x00\x00\x01\x84\x00\x01\x01");
        self.hear(104, one, b"\x00\x00\x00\x01\x00");
        self.hear(1050, one, b"\x00\x00\x00\x01\x00");
    }

    // INIT, MSG, CBOR, and vendor commands 40 and 41.
    fn handed_out(mut self, side: Side) {
        self.hear(0, side, b"\x00\x00\x00\x01\x86\x00\x08");
        self.hear(0, side, b"\x00\x00\x00\x01\x83\x00\x01\x09");
        self.hear(0, side, b"\x00\x00\x00\x01\x90\x00\x01\x09");
        self.hear(0, side, b"\x00\x00\x00\x01\xc0\x00\x01\x09");
        self.hear(0, side, b"\x00\x00\x00\x01\xc1\x00\x01\x09");
    }

    fn long(mut self, side: Side) {
        self.hear(0, side, b"\x00\x00\x00\x01\x81\x00\x40");
        self.hear(100, side, b"\x00\x00\x00\x01\x81\x00\x41");
    }

    fn hear(&mut self, time: u64, side: Side, front: &[u8]) {
        self.hear_in(time, side, front, &mut [0; Limits::LARGEST_PAYLOAD]);
    }

    // A packet that begins so and whose other bytes are 0.
    fn hear_in(&mut self, time: u64, side: Side, front: &[u8], message: &mut [u8]) {
        let rt = self.rt;
        let mut packet = [0u8; Limits::PACKET_SIZE];
        let mut reply = [0u8; Limits::SHORT_REPLY_SIZE];
        if front.len() > Limits::PACKET_SIZE {
            return;
        }
        packet[..front.len()].copy_from_slice(front);
        let stepped = step(side, self.key, time, &packet, message, &mut reply);
        self.key = stepped.key;
        print(rt, time);
        name(rt, side);
        hex(rt, front);
        text(rt, b": ");
        show(rt, stepped.answer);
        hex(rt, hid::payload(stepped.answer, message, &reply));
        text(rt, b"\n");
    }

    fn asked(&self, time: u64) {
        print(
            self.rt,
            format_args!("{time} main's lock, vendor's, the wink:"),
        );
        running(self.rt, self.key, time);
        text(self.rt, b"\n");
    }
}

fn name(rt: &impl Print, side: Side) {
    match side {
        Side::Main => text(rt, b" main "),
        Side::Vendor => text(rt, b" vendor "),
    }
}

// As in run_device: one function for both would be public, and no contract can speak of what it writes.
fn show(rt: &impl Print, answer: Answer) {
    match answer {
        Answer::Refused(number) => print(rt, format_args!("refused {number}")),
        Answer::Nothing => text(rt, b"nothing"),
        Answer::Message { cid, cmd, len } => kind(rt, "message", cid, cmd.number(), len),
        Answer::Echo { cid, cmd, len } => kind(rt, "echo", cid, cmd.number(), len),
        Answer::Reply { cid, cmd, len } => kind(rt, "reply", cid, cmd.number(), len),
    }
}

fn kind(rt: &impl Print, name: &str, cid: u32, cmd: u8, len: usize) {
    print(
        rt,
        format_args!("{name} on {cid:08x}, command {cmd:02x}, {len} bytes "),
    );
}
