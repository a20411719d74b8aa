// The bench's loop: standard input to its end, line by line, and the device's answers on standard output.
#![tactic(auto)]

ghost use Rattle.std.specs.Prelude.{◌≡◌, ◌≤◌, length};

use bench_input::{Cut, Line};
use bench_output::Texts;
use hid::{MainHid, MainReady};
use packet::Limits;
use std::io::{Input, Read};

// A device from its set-up: maximum 7,609, U2F in. With set-ups, a line that begins with '=' sets up another one. What is read and written no contract can say.
pub fn run(rt: &(impl Input + Print), setups: bool)
    ensures { result ≡ tt }
{
    match MainHid::new(Limits::LARGEST_PAYLOAD, true, b"") {
        MainReady::Hid(hid) => take_input(rt, hid, setups),
        // never: there is no larger maximum
        MainReady::Refused(_) => {}
    }
}

// How much is read at once, and how much is kept before it is written.
const PIECE: usize = 65536;

// Output is written before the next read, so that whoever waits for an answer before the next line gets it. The turns say only that the loop ends: reads have no
// measure, and a loop without end would take a handle that may wait.
fn take_input(rt: &(impl Input + Print), hid: MainHid, setups: bool) {
    let mut reader = rt.reader();
    let mut bench = Bench::new(hid, setups);
    let mut input = [0u8; PIECE];
    for _ in 0..u64::MAX {
        let n = read_some(&mut reader, &mut input);
        if n == 0 {
            break;
        }
        bench.take_lines(rt, &input[..n]);
        if bench.flush(rt).is_err() {
            return;
        }
    }
    bench.take_last(rt);
}

// 0 at the end of the input, and where it can't be read.
fn read_some(reader: &mut impl Read, input: &mut [u8]) -> usize
    ensures { result ≤ length input.new }
{
    reader.read(input).unwrap_or(0)
}

// The device and the buffers that it is lent; the first kept bytes of a line that has begun; and the first filled bytes of output that is not written yet.
#[derive(Drop)]
struct Bench {
    hid: MainHid,
    setups: bool,
    line: [u8; 147],
    kept: usize,
    message: [u8; Limits::LARGEST_PAYLOAD],
    reply: [u8; Limits::SHORT_REPLY_SIZE],
    out: [u8; PIECE],
    filled: usize,
}

impl Bench {
    fn new(hid: MainHid, setups: bool) -> Bench {
        Bench {
            hid,
            setups,
            line: [0; 147],
            kept: 0,
            message: [0; Limits::LARGEST_PAYLOAD],
            reply: [0; Limits::SHORT_REPLY_SIZE],
            out: [0; PIECE],
            filled: 0,
        }
    }

    // A piece of input has at most as many lines as bytes.
    fn take_lines(&mut self, rt: &impl Print, input: &[u8]) {
        let mut at = 0;
        for _ in 0..input.len() {
            match bench_input::cut_line(&mut self.line, self.kept, input, at) {
                Ok(Cut::Whole { kept, next }) => {
                    self.kept = kept;
                    self.take_line(rt);
                    at = next;
                }
                Ok(Cut::Part(kept)) => {
                    self.kept = kept;
                    return;
                }
                // never: both places are cut_line's own
                Err(_) => return,
            }
        }
    }

    // The last line may have no newline.
    fn take_last(&mut self, rt: &impl Print) {
        if self.kept > 0 {
            self.take_line(rt);
            let _ = self.flush(rt);
        }
    }

    // A line that is whole.
    fn take_line(&mut self, rt: &impl Print) {
        let kept = self.kept;
        self.kept = 0;
        if self.setups && kept > 0 && self.line[0] == b'=' {
            self.set_up(kept);
        } else {
            self.make_room(rt);
            self.answer(kept);
        }
    }

    // The rest of the line has the form of a step: the time is the maximum, the flag U2F, and the packet's first bytes are the count of channels.
    fn set_up(&mut self, kept: usize) {
        let mut packet = [0u8; Limits::PACKET_SIZE];
        let Some(rest) = self.line.get(1..kept) else {
            return;
        };
        if let Ok(Some(Line { time, disabled })) = bench_input::read_line(rest, &mut packet) {
            let count = u32::from_be_bytes([packet[0], packet[1], packet[2], packet[3]]);
            self.hid = fresh(time as usize, disabled, count).unwrap_or(self.hid);
        }
    }

    fn answer(&mut self, kept: usize) {
        let (Some(line), Some(out)) = (self.line.get(..kept), self.out.get_mut(self.filled..))
        else {
            return;
        };
        let room = out.len();
        let printed = bench_lines::bench_line(
            self.hid,
            line,
            &mut self.message,
            &mut self.reply,
            out,
        );
        self.hid = printed.hid;
        if let Ok(n) = printed.text
            && n <= room
        {
            self.filled += n;
        }
    }

    // The longest answer fits behind what is there.
    fn make_room(&mut self, rt: &impl Print) {
        if self.filled > PIECE - Texts::LONGEST {
            let _ = self.flush(rt);
        }
    }

    fn flush(&mut self, rt: &impl Print) -> std::io::Result<()> {
        let filled = self.filled;
        self.filled = 0;
        match self.out.get(..filled) {
            Some(text) => rt.write_all(text),
            None => Ok(()),
        }
    }
}

fn fresh(max: usize, u2f: bool, count: u32) -> Option<MainHid> {
    match MainHid::new(max, u2f, b"") {
        MainReady::Hid(mut made) => {
            made.hid.allocated = count;
            Some(made)
        }
        MainReady::Refused(_) => None,
    }
}
