// What is sent, as in wait_and_respond_busy: a packet is looked at before the sensor's word.
ghost use Rattle.std.specs.Prelude.{◌≡◌, [], false, length};
ghost use Rattle.ctaphid.specs.Touch.{place, busy, keepalive, is_cancel, on_sensor, before, on_packet, on_arrival};
ghost use Rattle.packet.specs.Reading.{heard};
ghost use Rattle.touch.specs.Meaning.{arrival_meant, sensor_meant, sent_of, silent, response_of};
ghost use Rattle.touch.specs.Waiting.{is_cut};

use crate::{Ending, RecvStatus, Response, Sent, UserPresence};
use packet::{CtapHidCommand, CtapHidError, ProcessedPacket, Reading};

// A step within the limit.
pub(crate) fn respond(
    interface: u32,
    cid: u32,
    presence: UserPresence,
    received: RecvStatus,
    packet: &[u8],
) -> Response
    requires { is_cut received (length packet.now) ≡ false }
    ensures { result ≡ response_of (on_arrival (place interface cid) (arrival_meant received packet.now) (sensor_meant presence)) }
{
    match received {
        RecvStatus::Timeout => on_sensor(interface, cid, presence),
        RecvStatus::Received(from) => {
            match packet::process_single_packet(packet) {
                Reading::Packet(processed) => on_packet(interface, cid, presence, from, processed),
                // never: it has 64 bytes
                Reading::Refused(_) => ended(Ending::NotYet),
            }
        }
    }
}

fn on_packet(
    interface: u32,
    cid: u32,
    presence: UserPresence,
    from: u32,
    packet: ProcessedPacket,
) -> Response
    ensures { result ≡ response_of (on_packet (place interface cid) from (heard packet []) (sensor_meant presence)) }
{
    let channel = packet.channel();
    if from != interface {
        return on_unrelated(interface, cid, presence, from, channel);
    }
    if channel != cid {
        return on_unrelated(interface, cid, presence, from, channel);
    }
    if is_cancel(packet) {
        return ended(Ending::Canceled);
    }
    on_sensor(interface, cid, presence)
}

// Any length will do.
fn is_cancel(packet: ProcessedPacket) -> bool
    ensures { result ≡ is_cancel (heard packet []) }
{
    match packet {
        ProcessedPacket::InitPacket {
            cid: _,
            cmd,
            len: _,
        } => cmd == CtapHidCommand::CANCEL,
        ProcessedPacket::ContinuationPacket { cid: _, seq: _ } => false,
    }
}

// The busy error goes out before what the sensor's word leads to.
fn on_unrelated(
    interface: u32,
    cid: u32,
    presence: UserPresence,
    from: u32,
    channel: u32,
) -> Response
    ensures { result ≡ response_of (before (busy (place from channel)) (on_sensor (place interface cid) (sensor_meant presence))) }
{
    let response = on_sensor(interface, cid, presence);
    let second = response.first;
    let ending = response.ending;
    Response {
        first: busy_error(from, channel),
        second,
        ending,
    }
}

fn on_sensor(interface: u32, cid: u32, presence: UserPresence) -> Response
    ensures { result ≡ response_of (on_sensor (place interface cid) (sensor_meant presence)) }
{
    match presence {
        UserPresence::Touched => ended(Ending::Touched),
        UserPresence::Timeout => Response {
            first: keepalive(interface, cid),
            second: Sent::Nothing,
            ending: Ending::NotYet,
        },
        UserPresence::Failed(number) => ended(Ending::Failed(number)),
    }
}

// Nothing is sent.
pub(crate) fn ended(ending: Ending) -> Response
    ensures { result ≡ silent ending }
{
    Response {
        first: Sent::Nothing,
        second: Sent::Nothing,
        ending,
    }
}

fn busy_error(interface: u32, cid: u32) -> Sent
    ensures { result ≡ sent_of (busy (place interface cid)) }
{
    Sent::Byte {
        interface,
        cid,
        cmd: CtapHidCommand::Error,
        byte: CtapHidError::CHANNEL_BUSY,
    }
}

// The status of a KEEPALIVE: user presence needed.
const UP_NEEDED: u8 = 2;

fn keepalive(interface: u32, cid: u32) -> Sent
    ensures { result ≡ sent_of (keepalive (place interface cid)) }
{
    Sent::Byte {
        interface,
        cid,
        cmd: CtapHidCommand::Keepalive,
        byte: UP_NEEDED,
    }
}
