// A packet that isn't refused meets the transport: checks 1 to 7 of a step (docs/RULES.md).
ghost use Rattle.std.specs.Prelude.{◌≡◌, true, ◌≤◌, length};
ghost use Rattle.ctaphid.specs.Packets.{read};
ghost use Rattle.ctaphid.specs.Receiver.{receive};
ghost use Rattle.ctaphid.specs.Transport.{is_valid, serve};
ghost use Rattle.packet.specs.Reading.{heard};
ghost use Rattle.receive.specs.Meaning.{receiver_of};
ghost use Rattle.receive.specs.Assembler.{buffered};
ghost use Rattle.hid.specs.Meaning.{settings_of, transport_of};
ghost use Rattle.hid.specs.State.{serving, served_of};
ghost use Rattle.hid.specs.Hearing.{settled_of, Settles, Hears, Admits, stepping, stepping_of, heard_of};

use crate::commands::preprocess_message;
use crate::due::still_due;
use crate::state::{at_time, error_message, no_message, with_assembler};
use crate::{CtapHid, Stepped};
use packet::{CtapHidError, ProcessedPacket, Reading};
use receive::Received;

// A packet of 64 bytes, read and heard.
pub(crate) fn process_packet(
    hid: CtapHid,
    time: u64,
    disabled: bool,
    packet: &[u8],
    message: &mut [u8],
    reply: &mut [u8],
) -> Stepped
    requires { Admits hid time packet.now message.old × (17 ≤ length reply.old) }
    ensures { stepping result message.new reply.new ≡ heard_of hid time disabled (read packet.now) message.old reply.old }
{
    match packet::process_single_packet(packet) {
        Reading::Packet(processed) => {
            let data = packet::packet_data(packet);
            hear(hid, time, disabled, processed, data, message, reply)
        }
        // never: it has 64 bytes
        Reading::Refused(_) => no_message(hid),
    }
}

// Check 1.
fn hear(
    hid: CtapHid,
    time: u64,
    disabled: bool,
    packet: ProcessedPacket,
    data: &[u8],
    message: &mut [u8],
    reply: &mut [u8],
) -> Stepped
    requires { Hears hid time (heard packet «data».now) message.old × (17 ≤ length reply.old) }
    ensures { stepping result message.new reply.new ≡ heard_of hid time disabled (heard packet «data».now) message.old reply.old }
{
    if channels::has_valid_channel(hid.allocated, packet) {
        return hear_valid(hid, time, disabled, packet, data, message, reply);
    }
    let answer = channels::not_valid(packet, reply);
    Stepped {
        hid: at_time(hid, time),
        answer,
    }
}

// Check 2.
fn hear_valid(
    hid: CtapHid,
    time: u64,
    disabled: bool,
    packet: ProcessedPacket,
    data: &[u8],
    message: &mut [u8],
    reply: &mut [u8],
) -> Stepped
    requires hears { Hears hid time (heard packet «data».now) message.old × (17 ≤ length reply.old) }
    requires data_value { is_valid hid.allocated (heard packet «data».now) ≡ true }
    ensures { stepping result message.new reply.new ≡ heard_of hid time disabled (heard packet «data».now) message.old reply.old }
{
    let cid = packet.channel();
    if channels::is_shut(hid.lock, hid.locked, time, disabled, cid) {
        let next = at_time(hid, time);
        return error_message(next, cid, CtapHidError::CHANNEL_BUSY, reply);
    }
    serve(hid, time, packet, data, message, reply)
}

// Checks 3 to 7.
fn serve(
    hid: CtapHid,
    time: u64,
    packet: ProcessedPacket,
    data: &[u8],
    message: &mut [u8],
    reply: &mut [u8],
) -> Stepped
    requires hears { Hears hid time (heard packet «data».now) message.old × (17 ≤ length reply.old) }
    requires data_value { is_valid hid.allocated (heard packet «data».now) ≡ true }
    ensures { stepping result message.new reply.new ≡ stepping_of (served_of hid time (serve (transport_of hid message.old) time (heard packet «data».now)) reply.old) (buffered (receive (settings_of hid) time (receiver_of hid.assembler message.old) (heard packet «data».now)) message.old) }
{
    let assembler = hid.assembler;
    let assembled = assembler.parse_packet(hid.max, hid.vendor, time, packet, data, message);
    let due = still_due(assembled.assembler);
    let next = with_assembler(hid, time, assembled.assembler, due);
    let received = assembled.received;
    settle(next, packet.channel(), received, message, reply)
}

// What the receiver makes of a packet of a channel.
fn settle(hid: CtapHid, cid: u32, received: Received, message: &[u8], reply: &mut [u8]) -> Stepped
    requires { Settles hid received message.now reply.old }
    ensures { serving result reply.new ≡ settled_of hid cid received message.now reply.old }
{
    match received {
        Received::Nothing => no_message(hid),
        Received::Error(error) => error_message(hid, cid, error, reply),
        Received::Message { cid: own, cmd, len } => preprocess_message(
            hid, own, cmd, len, message, reply,
        ),
        // never: the state is sound
        Received::Refused(_) => no_message(hid),
    }
}
