// Cuts messages into packets and writes each packet in hex. The stored output is OpenSK's own: oracle/sender-vectors.
#![tactic(auto)]

use packet::{CtapHidCommand, Limits, Refusal};
use report::{hex, print, text};
use send::Written;

fn main(rt: HostRuntime) {
    let mut payload = [0u8; 7610];
    count_up(&mut payload);
    for len in [0, 1, 57, 58, 116, 117, 7609, 7610] {
        send_message(&rt, &payload[..len]);
    }
}

fn count_up(payload: &mut [u8]) {
    for (i, byte) in payload.iter_mut().enumerate() {
        *byte = (i % 251) as u8;
    }
}

fn send_message(rt: &impl Print, payload: &[u8]) {
    print(rt, payload.len());
    if payload.len() > Limits::LARGEST_PAYLOAD {
        text(rt, b" bytes, split_message\n");
    } else {
        text(rt, b" bytes\n");
    }
    let mut packet = [0u8; Limits::PACKET_SIZE];
    for index in 0..130 {
        if let Written::Refused(number) = packet_at(payload, index, &mut packet) {
            return end(rt, number);
        }
        hex(rt, &packet);
        text(rt, b"\n");
    }
}

fn packet_at(payload: &[u8], index: usize, packet: &mut [u8]) -> Written {
    if payload.len() > Limits::LARGEST_PAYLOAD {
        send::split_message(
            0x01020304,
            CtapHidCommand::CBOR,
            payload,
            0xF2,
            index,
            packet,
        )
    } else {
        send::write_packet(0x01020304, CtapHidCommand::CBOR, payload, index, packet)
    }
}

fn end(rt: &impl Print, refusal: u8) {
    if refusal == Refusal::INDEX {
        text(rt, b"none left\n");
    } else {
        text(rt, b"refused\n");
    }
}
