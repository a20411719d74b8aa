// Runs packets through the reader and writes what it makes of each: a line for the packet, its data included.
#![tactic(auto)]

use packet::{Limits, ProcessedPacket, Reading};
use report::{hex, print, text};

fn main(rt: HostRuntime) {
    text(&rt, b"the packets of the bench example\n");
    read_front(
        &rt,
        b"\xff\xff\xff\xff\x86\x00\x08\x01\x02\x03\x04\x05\x06\x07\x08",
    );
    read_front(&rt, b"\x00\x00\x00\x01\x81\x00\x02\xab\xcd");
    read_front(&rt, b"\x00\x00\x00\x02\x88\x00\x00");
    read_front(&rt, b"\x00\x00\x00\x01\x90\x00\x01\x04");
    read_front(&rt, b"\x00\x00\x00\x01\x05");
    read_front(&rt, b"\x00\x00\x00\x01\x88\x00\x00");
    text(
        &rt,
        b"either side of the first bit, and the highest numbers\n",
    );
    read_front(&rt, b"\x01\x02\x03\x04\x7f\x05\x06\x07");
    read_front(&rt, b"\x01\x02\x03\x04\x80\x05\x06\x07");
    read(&rt, &[255u8; 64]);
    text(&rt, b"slices that are no packet\n");
    read(&rt, &[255u8; 63]);
    read(&rt, &[255u8; 65]);
    read(&rt, b"");
}

// A packet that begins so and whose other bytes are 0.
fn read_front(rt: &impl Print, front: &[u8]) {
    let mut packet = [0u8; Limits::PACKET_SIZE];
    if front.len() > Limits::PACKET_SIZE {
        return;
    }
    packet[..front.len()].copy_from_slice(front);
    read(rt, &packet);
}

fn read(rt: &impl Print, packet: &[u8]) {
    match packet::process_single_packet(packet) {
        Reading::Packet(p) => show(rt, p),
        Reading::Refused(number) => print(rt, format_args!("refused {number}")),
    }
    text(rt, b", data ");
    hex(rt, packet::packet_data(packet));
    text(rt, b"\n");
}

fn show(rt: &impl Print, p: ProcessedPacket) {
    match p {
        ProcessedPacket::InitPacket { cid, cmd, len } => {
            print(
                rt,
                format_args!("first packet on {cid:08x}, command {cmd}, length {len}"),
            );
        }
        ProcessedPacket::ContinuationPacket { cid, seq } => {
            print(rt, format_args!("continuation on {cid:08x}, number {seq}"));
        }
    }
}
