// A line of the bench, answered.
ghost use Rattle.std.specs.Prelude.{◌≡◌, ◌≤◌, length};
ghost use Rattle.hid.specs.MainHid.{main_step_of};
ghost use Rattle.bench_output.specs.Printing.{printing, printed};
ghost use Rattle.bench_lines.specs.Answering.{benched, bench_of, step_on, unread_line};

use crate::Printed;
use bench_input::Line;
use bench_output::Texts;
use hid::MainHid;
use packet::{Limits, Refusal};

// A line, without its newline, goes to the device, and out's front gets what is printed. A buffer shorter than the longest text is refused with 2, before
// anything else.
pub fn bench_line(
    hid: MainHid,
    line: &[u8],
    message: &mut [u8],
    reply: &mut [u8],
    out: &mut [u8],
) -> Printed
    ensures { benched result message.new reply.new out.new ≡ bench_of hid line.now message.old reply.old out.old }
{
    if out.len() < Texts::LONGEST {
        return Printed {
            hid,
            text: Err(Refusal::ShortBuffer),
        };
    }
    let mut packet = [0u8; Limits::PACKET_SIZE];
    match bench_input::read_line(line, &mut packet) {
        Ok(Some(Line { time, disabled })) => {
            step_on(hid, time, disabled, &packet, message, reply, out)
        }
        Ok(None) => unread(hid, out),
        // never: the packet has 64 bytes
        Err(_) => unread(hid, out),
    }
}

fn step_on(
    hid: MainHid,
    time: u64,
    disabled: bool,
    packet: &[u8],
    message: &mut [u8],
    reply: &mut [u8],
    out: &mut [u8],
) -> Printed
    ensures { benched result message.new reply.new out.new ≡ step_on (main_step_of hid time disabled packet.now message.old reply.old) out.old }
{
    let stepped = hid.step(time, disabled, packet, message, reply);
    let answer = stepped.answer;
    let text = bench_output::answer_text(answer, message, reply, out);
    let next = stepped.hid;
    Printed { hid: next, text }
}

// A line without a reading changes nothing.
fn unread(hid: MainHid, out: &mut [u8]) -> Printed
    requires { 16899 ≤ length out.old }
    ensures { (result.hid ≡ hid) × (printing result.text out.new ≡ printed unread_line out.old) }
{
    let text = b"line?\n";
    out[..text.len()].copy_from_slice(text);
    Printed {
        hid,
        text: Ok(text.len()),
    }
}
