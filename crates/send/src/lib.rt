// A message cut into packets, after OpenSK's hid/send.rs.
#![tactic(auto)]

mod sender;

ghost use Rattle.std.specs.Prelude.{◌≡◌, [], ◌∷◌, ◌++◌, ◌+◌, ◌-◌, ◌/◌, ◌*◌, ◌≤◌, ◌<◌, length, take, drop, replicate, get_or, eqb};
ghost use Rattle.ctaphid.specs.Choice.{pick};
ghost use Rattle.ctaphid.specs.Packets.{four, initialization, continuation, written};
ghost use Rattle.ctaphid.specs.Messages.{padded, wire};
ghost use Rattle.send.specs.Sending.{count_of, left, write_of, split_of, Puts};

use packet::{CtapHidCommand, Limits, Refusal};
pub use sender::{Admission, Next, Sender, Started};

// How many packets a payload takes.
#[derive(Clone, Copy)]
pub enum Count {
    Packets(usize),
    Refused(u8),
}

// A payload of more than 7,609 bytes is refused with 7.
pub fn packet_count(len: usize) -> Count
    ensures { result ≡ count_of len }
{
    if len > Limits::LARGEST_PAYLOAD {
        return Count::Refused(Refusal::LONG_PAYLOAD);
    }
    Count::Packets(packets_in(len))
}

// Whether a packet was written. A refused call leaves the packet as it came.
#[derive(Clone, Copy)]
pub enum Written {
    Packet,
    Refused(u8),
}

// Writes the packet at an index of a message, all 64 bytes of it. Refusals in the order 1, 12, 7, 6.
pub fn write_packet(cid: u32, cmd: u8, payload: &[u8], index: usize, packet: &mut [u8]) -> Written
    ensures { left result packet.new ≡ write_of cid cmd payload.now index packet.old }
{
    if packet.len() != Limits::PACKET_SIZE {
        return Written::Refused(Refusal::PACKET_SIZE);
    }
    if cmd > 127 {
        return Written::Refused(Refusal::COMMAND);
    }
    if payload.len() > Limits::LARGEST_PAYLOAD {
        return Written::Refused(Refusal::LONG_PAYLOAD);
    }
    if index >= packets_in(payload.len()) {
        return Written::Refused(Refusal::INDEX);
    }
    put_packet(cid, cmd, payload, index, packet);
    Written::Packet
}

// The same for a reply from outside, which may be of any length: one that is too long is replaced by CBOR with the
// byte internal_error (docs/DIFFERENCES.md, 5). Refusals in the order 1, 12, 6.
pub fn split_message(
    cid: u32,
    cmd: u8,
    payload: &[u8],
    internal_error: u8,
    index: usize,
    packet: &mut [u8],
) -> Written
    ensures { left result packet.new ≡ split_of cid cmd payload.now internal_error index packet.old }
{
    if payload.len() <= Limits::LARGEST_PAYLOAD {
        return write_packet(cid, cmd, payload, index, packet);
    }
    if packet.len() != Limits::PACKET_SIZE {
        return Written::Refused(Refusal::PACKET_SIZE);
    }
    if cmd > 127 {
        return Written::Refused(Refusal::COMMAND);
    }
    let replacement = [internal_error];
    write_packet(cid, CtapHidCommand::CBOR, &replacement, index, packet)
}

// The packet at an index that there is: its data, then its front.
fn put_packet(cid: u32, cmd: u8, payload: &[u8], index: usize, packet: &mut [u8])
    requires { Puts cmd payload.now index packet.old }
    ensures { packet.new ≡ get_or (wire cid cmd payload.now) index [] }
{
    let at = data_at(index);
    consume_data(packet, front_size(index), &payload[at..]);
    if index == 0 {
        init_packet(cid, cmd, payload.len(), packet);
        return;
    }
    continuation_packet(cid, index, packet);
}

fn packets_in(len: usize) -> usize
    requires { len ≤ 7609 }
    ensures { result ≡ 1 + (len + 1) / 59 }
{
    1 + (len + 1) / 59
}

// How many bytes stand before a packet's data.
fn front_size(index: usize) -> usize
    ensures value { result ≡ pick (eqb index 0) 7 5 }
    ensures upper_bound { result ≤ 7 }
{
    if index == 0 {
        return 7;
    }
    5
}

// Where a packet's data begins in the payload. At index 0 the difference is 0.
fn data_at(index: usize) -> usize
    requires { index ≤ 128 }
    ensures { result ≡ 59 * index - 2 }
{
    if index == 0 {
        return 0;
    }
    let seq = index - 1;
    57 + 59 * seq
}

// The front of a packet whose data is there.
fn init_packet(cid: u32, cmd: u8, len: usize, packet: &mut [u8])
    requires { (cmd ≤ 127) × (len ≤ 7609) × (length packet.old ≡ 64) }
    ensures { packet.new ≡ written (initialization cid cmd len (drop 7 packet.old)) }
{
    let front = head(cid, cmd + 0x80, (len / 0x100) as u8, (len % 0x100) as u8);
    packet[..7].copy_from_slice(&front);
}

fn continuation_packet(cid: u32, index: usize, packet: &mut [u8])
    requires { (1 ≤ index) × (index ≤ 128) × (length packet.old ≡ 64) }
    ensures { packet.new ≡ written (continuation cid (index - 1) (drop 5 packet.old)) }
{
    let seq = index - 1;
    let front = head(cid, seq as u8, 0, 0);
    packet[..5].copy_from_slice(&front[..5]);
}

// The channel and the three bytes after it, of which a continuation has the first.
fn head(cid: u32, a: u8, b: u8, c: u8) -> [u8; 7]
    ensures { result ≡ four cid ++ (a ∷ b ∷ c ∷ []) }
{
    [
        (cid / 0x100_0000) as u8,
        (cid / 0x1_0000 % 0x100) as u8,
        (cid / 0x100 % 0x100) as u8,
        (cid % 0x100) as u8,
        a,
        b,
        c,
    ]
}

// A packet's data, after a front of so many bytes: as many bytes as there is room for, and zeros where there are fewer. The front is left open.
// All is cleared at once, because a size that is known compiles to a few stores, and another to a call of memset.
fn consume_data(packet: &mut [u8], front: usize, data: &[u8])
    requires { front ≤ length packet.old }
    ensures { drop front packet.new ≡ padded (length packet.old - front) (take (length packet.old - front) «data».now) }
{
    let room = packet.len() - front;
    if data.len() < room {
        clear(packet);
        copy(data, &mut packet[front..]);
    } else {
        copy(&data[..room], &mut packet[front..]);
    }
}

// A loop, because copy_from_slice would call C's memmove where the size isn't known, and the archive must need no symbol from outside.
fn copy(src: &[u8], dst: &mut [u8])
    requires { length src.now ≤ length dst.old }
    ensures { dst.new ≡ src.now ++ drop (length src.now) dst.old }
{
    let mut i = 0;
    while i < src.len() {
        dst[i] = src[i];
        i += 1;
    }
}

fn clear(dst: &mut [u8])
    ensures { dst.new ≡ replicate (length dst.old) 0 }
{
    let mut i = 0;
    while i < dst.len() {
        dst[i] = 0;
        i += 1;
    }
}
