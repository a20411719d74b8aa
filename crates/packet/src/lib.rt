// Reading a packet, after the first part of OpenSK's hid/mod.rs.
#![tactic(auto)]

mod capability;
mod command;
mod error;
mod limits;
mod refusal;

ghost use Rattle.std.specs.Prelude.{◌≡◌, ◌+◌, ◌*◌, []};
ghost use Rattle.ctaphid.specs.Receiver.{channel_of};
ghost use Rattle.packet.specs.Reading.{heard, said, reading_of, field_of, IsField};

pub use capability::Capability;
pub use command::CtapHidCommand;
pub use error::CtapHidError;
pub use limits::Limits;
pub use refusal::Refusal;

// A packet's kind and numbers. Its data comes from packet_data.
#[derive(Clone, Copy)]
pub enum ProcessedPacket {
    InitPacket { cid: u32, cmd: u8, len: usize },
    ContinuationPacket { cid: u32, seq: u8 },
}

impl ProcessedPacket {
    pub fn channel(self) -> u32
        ensures { result ≡ channel_of (heard self []) }
    {
        match self {
            ProcessedPacket::InitPacket {
                cid,
                cmd: _,
                len: _,
            } => cid,
            ProcessedPacket::ContinuationPacket { cid, seq: _ } => cid,
        }
    }
}

#[derive(Clone, Copy)]
pub enum Reading {
    Packet(ProcessedPacket),
    Refused(u8),
}

// A packet that isn't 64 bytes is refused with 1.
pub fn process_single_packet(packet: &[u8]) -> Reading
    ensures { said result (field_of (reading_of packet.now)) ≡ reading_of packet.now }
{
    if packet.len() != Limits::PACKET_SIZE {
        return Reading::Refused(Refusal::PACKET_SIZE);
    }
    let cid = be32(packet[0], packet[1], packet[2], packet[3]);
    let kind = packet[4];
    if kind >= INIT_BIT {
        let len = be16(packet[5], packet[6]);
        Reading::Packet(ProcessedPacket::InitPacket {
            cid,
            cmd: kind - INIT_BIT,
            len,
        })
    } else {
        Reading::Packet(ProcessedPacket::ContinuationPacket { cid, seq: kind })
    }
}

// The packet's own 57 or 59 data bytes. A packet that isn't 64 bytes has none.
pub fn packet_data(packet: &[u8]) -> &[u8]
    ensures { IsField packet.entry result }
{
    if packet.len() != Limits::PACKET_SIZE {
        return &packet[..0];
    }
    if packet[4] >= INIT_BIT {
        &packet[7..]
    } else {
        &packet[5..]
    }
}

const INIT_BIT: u8 = 0x80;

// Four bytes as a number, most significant first.
pub fn be32(a: u8, b: u8, c: u8, d: u8) -> u32
    ensures { result ≡ a * 0x100_0000 + b * 0x1_0000 + c * 0x100 + d }
{
    (a as u32) * 0x100_0000 + (b as u32) * 0x1_0000 + (c as u32) * 0x100 + (d as u32)
}

// Two bytes as a number, the high one first.
pub fn be16(high: u8, low: u8) -> usize
    ensures { result ≡ high * 0x100 + low }
{
    (high as usize) * 0x100 + (low as usize)
}
