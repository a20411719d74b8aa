// The lines that a reply's packets print.
ghost use Rattle.std.specs.Prelude.{◌≡◌, ◌+◌, ◌/◌, ◌≤◌, length, take};
ghost use Rattle.bench_output.specs.Placing.{Put};
ghost use Rattle.bench_output.specs.Packets.{trimmed, packet_line, packet_lines};

use crate::placing::{put, put_hex};
use packet::Limits;
use send::Count;

// A line for each packet. The packet's 64 bytes are all that is held of the message.
pub(crate) fn put_packets(cid: u32, cmd: u8, payload: &[u8], out: &mut [u8]) -> usize
    requires { (cmd ≤ 127) × (length payload.now ≤ 7609) × (16899 ≤ length out.old) }
    ensures { Put 0 (packet_lines cid cmd payload.now) out.old result out.new }
{
    let mut packet = [0; Limits::PACKET_SIZE];
    let mut place = 0;
    for i in 0..packets_in(payload.len()) {
        let _ = send::write_packet(cid, cmd, payload, i, &mut packet);
        place = put_packet(&packet, out, place);
    }
    place
}

fn packets_in(len: usize) -> usize
    requires { len ≤ 7609 }
    ensures { result ≡ 1 + (len + 1) / 59 }
{
    match send::packet_count(len) {
        Count::Packets(count) => count,
        Count::Refused(_) => 0,
    }
}

fn put_packet(packet: &[u8], out: &mut [u8], at: usize) -> usize
    requires { (length packet.now ≡ 64) × (at + 131 ≤ length out.old) }
    ensures { Put at (packet_line packet.now) out.old result out.new }
{
    let shown = shown_in(packet);
    let a = put(b"> ", out, at);
    let b = put_hex(&packet[..shown], out, a);
    put(b"\n", out, b)
}

// How many bytes of a packet are shown: those in front of its last zeros, and never fewer than LEAST.
fn shown_in(packet: &[u8]) -> usize
    requires { 7 ≤ length packet.now }
    ensures { (result ≤ length packet.now) × (take result packet.now ≡ trimmed packet.now) }
{
    match packet.iter().rposition(|byte| *byte != 0) {
        Some(last) if last >= LEAST => last + 1,
        _ => LEAST,
    }
}

const LEAST: usize = 7;
