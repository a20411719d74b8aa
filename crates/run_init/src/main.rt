// Replies to INIT through the entry that `snjofrask_c` exports, and what follows their fields. Then the same after packets: cut by the sender, put together by the host's reader.
#![tactic(auto)]

use host::{Answer, Collection};
use packet::{CtapHidCommand, Limits};
use report::{hex, print, text};
use send::Written;

fn main(rt: HostRuntime) {
    let payload = reply();
    read_all(&rt, &payload);
    send_all(&rt, &payload);
}

fn read_all(rt: &impl Print, payload: &[u8]) {
    text(rt, b"replies to INIT, by their length\n");
    show(rt, CtapHidCommand::INIT, front(payload, 16));
    show(rt, CtapHidCommand::INIT, front(payload, 17));
    show(rt, CtapHidCommand::INIT, front(payload, 19));
    show(rt, CtapHidCommand::INIT, front(payload, 7609));
    show(rt, CtapHidCommand::INIT, payload);
    text(rt, b"another command\n");
    show(rt, CtapHidCommand::PING, front(payload, 19));
}

fn send_all(rt: &impl Print, payload: &[u8]) {
    text(rt, b"in packets\n");
    send_reply(rt, front(payload, 19));
    send_reply(rt, front(payload, 7609));
}

// The reply of the bench example with ab and cd behind it, then 07 throughout, but for ee as the last byte of 7,609.
fn reply() -> [u8; 7610] {
    let mut payload = [7u8; 7610];
    payload[..19].copy_from_slice(
        b"\x01\x02\x03\x04\x05\x06\x07\x08\x00\x00\x00\x01\x02\x01\x00\x00\x05\xab\xcd",
    );
    payload[7608] = 0xEE;
    payload
}

fn front(payload: &[u8], len: usize) -> &[u8] {
    payload.get(..len).unwrap_or(payload)
}

fn show(rt: &impl Print, cmd: u8, payload: &[u8]) {
    print(rt, format_args!("{} bytes: ", payload.len()));
    let told = snjofrask::snjofrask_init_reply(cmd, payload);
    if told.refusal == 0 {
        text(rt, b"nonce ");
        hex(rt, &told.nonce);
        print(rt, format_args!(", channel {:08x}, then ", told.cid));
        hex(
            rt,
            &[
                told.protocol,
                told.major,
                told.minor,
                told.build,
                told.capabilities,
            ],
        );
    } else {
        print(rt, format_args!("refused {}", told.refusal));
    }
    print(rt, format_args!("; {} bytes follow", told.rest));
    show_rest(rt, host::init_rest(cmd, payload));
    text(rt, b"\n");
}

// All of what follows, or of much its ends.
fn show_rest(rt: &impl Print, rest: &[u8]) {
    if rest.is_empty() {
        return;
    }
    text(rt, b": ");
    hex(rt, front(rest, 3));
    if let [_, _, _, .., last] = rest {
        text(rt, b"..");
        hex(rt, &[*last]);
    }
}

fn send_reply(rt: &impl Print, payload: &[u8]) {
    let mut buffer = [0u8; Limits::LARGEST_PAYLOAD];
    let mut packet = [0u8; Limits::PACKET_SIZE];
    let mut collection = Collection::new();
    for index in 0..129 {
        let Written::Packet = send::write_packet(
            BROADCAST,
            CtapHidCommand::INIT,
            payload,
            index,
            &mut packet,
        ) else {
            return;
        };
        let progress = collection.read(BROADCAST, &packet, &mut buffer);
        collection = progress.collection;
        hear(rt, index, progress.answer, &buffer);
    }
}

const BROADCAST: u32 = 0xFFFF_FFFF;

fn hear(rt: &impl Print, index: usize, answer: Answer, buffer: &[u8]) {
    match answer {
        Answer::Waiting => {}
        Answer::Reply { cmd, len } => {
            print(rt, format_args!("packet {index} makes it whole: "));
            show(rt, cmd, front(buffer, len));
        }
        Answer::Ignored => text(rt, b"ignored\n"),
        Answer::Keepalive(_) => text(rt, b"keepalive\n"),
        Answer::Refused(_) => text(rt, b"refused\n"),
    }
}
