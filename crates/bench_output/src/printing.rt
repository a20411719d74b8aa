// The lines that an answer of the device prints (docs/RULES.md, The bench's lines).
ghost use Rattle.std.specs.Prelude.{◌≡◌, false, ◌+◌, ◌*◌, ◌≤◌, length};
ghost use Rattle.bench_output.specs.Placing.{Put};
ghost use Rattle.bench_output.specs.Printing.{payload_text, command_line, refused_line, answer_lines, said_with, is_unsendable, printing, text_of, hex_text_of};

use crate::Texts;
use crate::packets::put_packets;
use crate::placing::{put, put_decimal, put_hex};
use answers::Answer;
use packet::{Limits, Refusal};

// The lines that an answer prints, each with its newline, at the front of out. A buffer shorter than the longest text is refused
// with 2, a command above 127 to be sent with 12, a payload of more than 7,609 bytes with 7. One lifetime for both buffers, as the payload is a part of either.
pub fn answer_text<'a>(
    answer: Answer,
    message: &'a [u8],
    reply: &'a [u8],
    out: &mut [u8],
) -> Result<usize, Refusal>
    ensures { printing result out.new ≡ text_of answer message.now reply.now out.old }
{
    if out.len() < Texts::LONGEST {
        return Err(Refusal::ShortBuffer);
    }
    if is_unsendable(answer) {
        return Err(Refusal::Command);
    }
    let payload = answers::payload(answer, message, reply);
    if payload.len() > Limits::LARGEST_PAYLOAD {
        return Err(Refusal::LongPayload);
    }
    Ok(put_answer(answer, payload, out))
}

// Bytes in lower-case hex, at the front of out. A buffer with less room than that is refused with 2.
pub fn hex_text(bytes: &[u8], out: &mut [u8]) -> Result<usize, Refusal>
    ensures { printing result out.new ≡ hex_text_of bytes.now out.old }
{
    if out.len() < 2 * bytes.len() {
        return Err(Refusal::ShortBuffer);
    }
    Ok(put_hex(bytes, out, 0))
}

// Whether it is to be sent with a command above 127, which no packet can carry.
fn is_unsendable(answer: Answer) -> bool
    ensures { result ≡ is_unsendable answer }
{
    match answer {
        Answer::Echo { cmd, .. } | Answer::Reply { cmd, .. } => cmd.number() > 127,
        Answer::Message { .. } | Answer::Nothing | Answer::Refused(_) => false,
    }
}

fn put_answer(answer: Answer, payload: &[u8], out: &mut [u8]) -> usize
    requires { (length payload.now ≤ 7609) × (16899 ≤ length out.old) × (is_unsendable answer ≡ false) }
    ensures { Put 0 (answer_lines (said_with answer payload.now)) out.old result out.new }
{
    match answer {
        Answer::Refused(number) => put_refused(number, out),
        Answer::Nothing => put(b"-\n", out, 0),
        Answer::Message { cid, cmd, .. } => put_command(cid, cmd.number(), payload, out),
        Answer::Echo { cid, cmd, .. } | Answer::Reply { cid, cmd, .. } => {
            put_packets(cid, cmd.number(), payload, out)
        }
    }
}

fn put_refused(number: u8, out: &mut [u8]) -> usize
    requires { 12 ≤ length out.old }
    ensures { Put 0 (refused_line number) out.old result out.new }
{
    let a = put(b"refused ", out, 0);
    let b = put_decimal(number, out, a);
    put(b"\n", out, b)
}

fn put_command(cid: u32, cmd: u8, payload: &[u8], out: &mut [u8]) -> usize
    requires { 21 + 2 * length payload.now ≤ length out.old }
    ensures { Put 0 (command_line cid cmd payload.now) out.old result out.new }
{
    let a = put(b"command ", out, 0);
    let b = put_hex(&cid.to_be_bytes(), out, a);
    let c = put(b" ", out, b);
    let d = put_hex(&[cmd], out, c);
    let e = put_payload(payload, out, d);
    put(b"\n", out, e)
}

fn put_payload(payload: &[u8], out: &mut [u8], at: usize) -> usize
    requires { at + (1 + 2 * length payload.now) ≤ length out.old }
    ensures { Put at (payload_text payload.now) out.old result out.new }
{
    if payload.is_empty() {
        return at;
    }
    let a = put(b" ", out, at);
    put_hex(payload, out, a)
}
