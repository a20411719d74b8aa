// Runs of the device beside the rows of docs/RULES.md: a broadcast INIT that declares 60 bytes, a wink at its end, the packets still due, commands that aren't known,
// and vendor commands.
// A line has the time, the packet's front and the answer: its payload where it has one.
#![tactic(auto)]

use hid::{Answer, MainHid, MainReady, Running};
use packet::Limits;
use report::{hex, print, text};

// What is printed to, and the device as the last step left it.
#[derive_where(Clone, Copy)]
struct Run<'a, R> {
    rt: &'a R,
    hid: MainHid,
}

fn main(rt: HostRuntime) {
    match MainHid::new(Limits::LARGEST_PAYLOAD, true, b"") {
        MainReady::Hid(hid) => {
            let run = Run { rt: &rt, hid };
            text(
                &rt,
                b"a broadcast INIT declared 60 blocks all others for 100 ms, and its continuation gets nothing\n",
            );
            run.blocked();
            text(&rt, b"a wink runs for 5,000 ms\n");
            run.winked();
            text(
                &rt,
                b"packets still due: one fewer with each that is taken; past the deadline as many until a packet gets to check 3\n",
            );
            run.counted();
            text(
                &rt,
                b"commands that aren't known: told so at the first packet, and no transaction begins\n",
            );
            run.told();
        }
        MainReady::Refused(_) => text(&rt, b"refused\n"),
    }
    match MainHid::new(Limits::LARGEST_PAYLOAD, true, b"\x7f\x40\x7f") {
        MainReady::Hid(hid) => {
            let run = Run { rt: &rt, hid };
            text(
                &rt,
                b"with vendor commands 40 and 7f: these end a wink and are handed out, 41 is not\n",
            );
            run.branded();
        }
        MainReady::Refused(_) => text(&rt, b"refused\n"),
    }
}

impl<R: Print> Run<'_, R> {
    // Channel 1 is allocated at 0, and the INIT that is too long comes at 10.
    fn blocked(mut self) {
        self.step(0, b"\xff\xff\xff\xff\x86\x00\x08");
        self.step(10, b"\xff\xff\xff\xff\x86\x00\x3c");
        self.step(11, b"\x00\x00\x00\x01\x81\x00\x01\xaa");
        self.step(12, b"\xff\xff\xff\xff\x00");
        self.step(109, b"\x00\x00\x00\x01\x81\x00\x01\xaa");
        self.step(110, b"\x00\x00\x00\x01\x81\x00\x01\xaa");
        self.step(110, b"\xff\xff\xff\xff\x86\x00\x08");
        self.asked(110);
    }

    fn winked(mut self) {
        self.step(0, b"\xff\xff\xff\xff\x86\x00\x08");
        self.asked(0);
        self.step(0, b"\x00\x00\x00\x01\x88\x00\x00");
        self.asked(0);
        self.asked(4999);
        self.asked(5000);
    }

    // CBOR of 177 bytes on channel 1, which takes 3 continuations. After one of them its time is over at 110; then another one is dropped by a wrong number.
    fn counted(mut self) {
        self.step(0, b"\xff\xff\xff\xff\x86\x00\x08");
        self.step(0, b"\xff\xff\xff\xff\x86\x00\x08");
        self.due();
        self.step(0, b"\x00\x00\x00\x01\x90\x00\xb1");
        self.due();
        self.step(10, b"\x00\x00\x00\x01\x00");
        self.due();
        self.step(20, b"\x00\x00\x00\x02\x81\x00\x00");
        self.due();
        self.shut_step(110, b"\x00\x00\x00\x01\x01");
        self.due();
        self.asked(111);
        self.locked(111);
        self.step(112, b"\x00\x00\x00\x03\x81\x00\x00");
        self.due();
        self.step(113, b"\x00\x00\x00\x01\x01");
        self.due();
        self.step(200, b"\x00\x00\x00\x02\x90\x00\x3a");
        self.due();
        self.step(201, b"\x00\x00\x00\x02\x01");
        self.due();
        self.step(202, b"\x00\x00\x00\x02\x90\x00\x3a");
        self.due();
        self.step(203, b"\x00\x00\x00\x02\x00");
        self.due();
    }

    fn due(&self) {
        print(
            self.rt,
            format_args!("still due: {}\n", self.hid.hid.still_due),
        );
    }

    // Channels 1 and 2. Command 2 in 129 packets: by itself, under channel 1's own lock, past the deadline of channel 1's CBOR; then inside such a message, beside
    // one, and above the maximum. KEEPALIVE is no request. CANCEL is known, and begins a transaction; as one of command 2 it is told so
    // when it is whole.
    fn told(mut self) {
        self.step(0, b"\xff\xff\xff\xff\x86\x00\x08");
        self.step(0, b"\xff\xff\xff\xff\x86\x00\x08");
        self.unknown(1);
        self.step(2, b"\x00\x00\x00\x02\x81\x00\x01\xaa");
        self.step(3, b"\x00\x00\x00\x01\x84\x00\x01\x01");
        self.unknown(4);
        self.step(5, b"\x00\x00\x00\x02\x82\x00\x3a");
        self.step(6, b"\x00\x00\x00\x01\x84\x00\x01\x00");
        self.step(10, b"\x00\x00\x00\x01\x90\x00\x3a");
        self.unknown(110);
        self.step(200, b"\x00\x00\x00\x01\x90\x00\x3a");
        self.step(201, b"\x00\x00\x00\x02\x82\x00\x3a");
        self.step(202, b"\x00\x00\x00\x01\x82\x00\x3a");
        self.due();
        self.step(203, b"\x00\x00\x00\x01\x82\x1d\xba");
        self.due();
        self.step(204, b"\x00\x00\x00\x01\xbb\x00\x3a");
        self.due();
        self.step(205, b"\x00\x00\x00\x01\x91\x00\x3a");
        self.due();
        self.bring_command_2();
        self.step(206, b"\x00\x00\x00\x01\x00");
        self.due();
    }

    // The same state, but its transaction is one of command 2: only a caller can bring it along.
    fn bring_command_2(&mut self) {
        self.hid.hid.assembler.cmd = 2;
    }

    // A message of 7,609 bytes with command 2, on channel 1. The first packet is shown as any; of each of the others a '-' where it gets nothing.
    fn unknown(&mut self, time: u64) {
        self.step(time, b"\x00\x00\x00\x01\x82\x1d\xb9");
        let mut packet = [0u8; Limits::PACKET_SIZE];
        let mut message = [0u8; Limits::LARGEST_PAYLOAD];
        let mut reply = [0u8; Limits::SHORT_REPLY_SIZE];
        packet[3] = 1;
        for seq in 0..128u8 {
            packet[4] = seq;
            let stepped = self
                .hid
                .step(time, false, &packet, &mut message, &mut reply);
            self.hid = stepped.hid;
            mark(self.rt, stepped.answer);
        }
        text(self.rt, b"\n");
    }

    fn branded(mut self) {
        self.step(0, b"\xff\xff\xff\xff\x86\x00\x08");
        self.step(0, b"\x00\x00\x00\x01\x88\x00\x00");
        self.step(1, b"\x00\x00\x00\x01\xc0\x00\x02\xaa\xbb");
        self.asked(1);
        self.step(2, b"\x00\x00\x00\x01\xff\x00\x00");
        self.step(3, b"\x00\x00\x00\x01\xc1\x00\x02\xaa\xbb");
        self.step(4, b"\xff\xff\xff\xff\xc0\x00\x02\xaa\xbb");
        self.step(5, b"\x00\x00\x00\x02\xc0\x00\x02\xaa\xbb");
        self.asked(5);
    }

    fn step(&mut self, time: u64, front: &[u8]) {
        self.step_when(time, false, front);
    }

    fn shut_step(&mut self, time: u64, front: &[u8]) {
        text(self.rt, b"disabled, ");
        self.step_when(time, true, front);
    }

    // A packet that begins so and whose other bytes are 0.
    fn step_when(&mut self, time: u64, disabled: bool, front: &[u8]) {
        let rt = self.rt;
        let mut packet = [0u8; Limits::PACKET_SIZE];
        let mut message = [0u8; Limits::LARGEST_PAYLOAD];
        let mut reply = [0u8; Limits::SHORT_REPLY_SIZE];
        if front.len() > Limits::PACKET_SIZE {
            return;
        }
        packet[..front.len()].copy_from_slice(front);
        let stepped = self
            .hid
            .step(time, disabled, &packet, &mut message, &mut reply);
        self.hid = stepped.hid;
        print(rt, format_args!("{time} "));
        hex(rt, front);
        text(rt, b": ");
        show(rt, stepped.answer);
        hex(rt, hid::payload(stepped.answer, &message, &reply));
        text(rt, b"\n");
    }

    fn asked(&self, time: u64) {
        print(self.rt, format_args!("{time} a wink runs: "));
        say(self.rt, self.hid.is_winking_at(time));
    }

    fn locked(&self, time: u64) {
        print(self.rt, format_args!("{time} a lock runs: "));
        say(self.rt, self.hid.hid.is_locked_at(time));
    }
}

fn mark(rt: &impl Print, answer: Answer) {
    match answer {
        Answer::Nothing => text(rt, b"-"),
        Answer::Refused(_) => text(rt, b"?"),
        Answer::Message { .. } | Answer::Echo { .. } | Answer::Reply { .. } => text(rt, b"!"),
    }
}

// As in run_key: one function for both would be public, and no contract can speak of what it writes.
fn show(rt: &impl Print, answer: Answer) {
    match answer {
        Answer::Refused(number) => print(rt, format_args!("refused {number}")),
        Answer::Nothing => text(rt, b"nothing"),
        Answer::Message { cid, cmd, len } => kind(rt, "message", cid, cmd.number(), len),
        Answer::Echo { cid, cmd, len } => kind(rt, "echo", cid, cmd.number(), len),
        Answer::Reply { cid, cmd, len } => kind(rt, "reply", cid, cmd.number(), len),
    }
}

fn kind(rt: &impl Print, name: &str, cid: u32, cmd: u8, len: usize) {
    print(
        rt,
        format_args!("{name} on {cid:08x}, command {cmd:02x}, {len} bytes "),
    );
}

fn say(rt: &impl Print, running: Running) {
    match running {
        Running::Yes => text(rt, b"yes\n"),
        Running::No => text(rt, b"no\n"),
        Running::Refused(number) => print(rt, format_args!("refused {number}\n")),
    }
}
