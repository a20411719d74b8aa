// A short way for the packet that a long message mostly consists of: the continuation that is due, with more to come. The long way comes to the same
// (docs/SPEED.md says what it saves).
ghost use Rattle.std.specs.Prelude.{◌≡◌, ◌++◌, ◌+◌, ◌≤◌, ◌<◌, length, take, drop};
ghost use Rattle.ctaphid.specs.Receiver.{collect};
ghost use Rattle.receive.specs.Meaning.{transaction_of};
ghost use Rattle.receive.specs.Assembler.{assembling, assembled_of, Adds};
ghost use Rattle.hid.specs.Hearing.{Admits};
ghost use Rattle.hid.specs.Shortcut.{Due, TellsNext, TellsDue, GoesOn};

use crate::{CtapHid, MessageAssembler};
use packet::{Limits, ProcessedPacket, Reading};
use receive::Received;

// Whether this is such a packet.
pub(crate) fn is_due(hid: CtapHid, time: u64, disabled: bool, packet: &[u8]) -> bool
    ensures { TellsDue result hid time disabled packet.now }
{
    if hid.still_due <= 1 {
        return false;
    }
    match packet::process_single_packet(packet) {
        Reading::Packet(processed) => is_next(hid, time, disabled, processed),
        Reading::Refused(_) => false,
    }
}

fn is_next(hid: CtapHid, time: u64, disabled: bool, packet: ProcessedPacket) -> bool
    ensures { TellsNext result hid time disabled packet }
{
    match packet {
        ProcessedPacket::InitPacket {
            cid: _,
            cmd: _,
            len: _,
        } => false,
        ProcessedPacket::ContinuationPacket { cid, seq } => {
            let a = hid.assembler;
            if a.deadline <= time {
                return false;
            }
            if cid != a.cid {
                return false;
            }
            if seq as u16 != a.seq {
                return false;
            }
            if channels::is_shut(hid.lock, hid.locked, time, disabled, cid) {
                return false;
            }
            channels::has_valid_channel(hid.allocated, packet)
        }
    }
}

// Check 6 for such a packet.
pub(crate) fn go_on(hid: CtapHid, time: u64, packet: &[u8], message: &mut [u8]) -> CtapHid
    requires { Admits hid time packet.now message.old × Due hid time packet.now }
    ensures { GoesOn result hid time packet.now message.old message.new }
{
    let mut next = hid.assembler;
    next.deadline = time + Limits::TIMEOUT_MS;
    next.seq = next.seq + 1;
    let data = packet::packet_data(packet);
    let assembler = append_block(next, data, message);
    // field by field, not copied and altered: docs/SPEED.md
    CtapHid {
        assembler,
        lock: hid.lock,
        last: time,
        vendor: hid.vendor,
        allocated: hid.allocated,
        locked: hid.locked,
        max: hid.max,
        u2f: hid.u2f,
        spare: hid.spare,
        still_due: hid.still_due - 1,
    }
}

// The data is 59 bytes, and more is declared.
fn append_block(a: MessageAssembler, data: &[u8], message: &mut [u8]) -> MessageAssembler
    requires adds { Adds a message.old }
    requires data_len { (length «data».now ≡ 59) × (a.taken + 59 < a.len) }
    ensures { assembling (record { assembler = result; received = Received.Nothing }) message.new ≡ assembled_of (collect (transaction_of a message.old) «data».now) message.old }
{
    let at = a.taken as usize;
    put_block(message, at, data);
    let mut next = a;
    next.taken = (at + 59) as u32;
    next
}

// By way of an array: its size is known, so it is copied at once and not byte by byte.
fn put_block(message: &mut [u8], at: usize, data: &[u8])
    requires { (length «data».now ≡ 59) × (at + 59 ≤ length message.old) }
    ensures { message.new ≡ take at message.old ++ («data».now ++ drop (at + length «data».now) message.old) }
{
    let mut block = [0; 59];
    copy(data, &mut block);
    copy(&block, &mut message[at..]);
}

// A loop: by copy_from_slice a packet takes 310 instructions more on a Cortex-M4. On x86-64 both take the same.
fn copy(src: &[u8], dst: &mut [u8])
    requires { length src.now ≤ length dst.old }
    ensures { dst.new ≡ src.now ++ drop (length src.now) dst.old }
{
    let mut i = 0;
    while i < src.len() {
        dst[i] = src[i];
        i += 1;
    }
}
