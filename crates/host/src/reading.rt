// A packet meets a collection. Each step has its counterpart in the definition.
ghost use Rattle.std.specs.Prelude.{◌≡◌, List, ℕ, ◌<◌, length, eqb};
ghost use Rattle.ctaphid.specs.Choice.{pick};
ghost use Rattle.ctaphid.specs.Packets.{read};
ghost use Rattle.ctaphid.specs.Host.{gather, alive, begin, hear};
ghost use Rattle.packet.specs.Reading.{heard};
ghost use Rattle.host.specs.Meaning.{none_begun, begun_of, collection_meant};
ghost use Rattle.host.specs.Reading.{reading, heard_of, read_of, Adds, Hears, Admits};

use crate::soundness::is_sound;
use crate::{Answer, Collection, Progress};
use collect::Added;
use packet::{CtapHidCommand, Limits, ProcessedPacket, Reading, Refusal};

impl Collection {
    // No reply is begun.
    pub fn new() -> Collection
        ensures { result ≡ none_begun }
    {
        Collection {
            len: 0,
            taken: 0,
            cmd: 0,
            seq: 0,
        }
    }

    // A packet, read for channel cid. Refusals in the order 1, 3, and after what is ignored 9, 10.
    pub fn read(self, cid: u32, packet: &[u8], buffer: &mut [u8]) -> Progress
        ensures { reading result buffer.new ≡ read_of self cid packet.now buffer.old }
    {
        if packet.len() != Limits::PACKET_SIZE {
            return left(self, Answer::Refused(Refusal::PACKET_SIZE));
        }
        if is_sound(self, buffer.len()) {
            return read_packet(self, cid, packet, buffer);
        }
        left(self, Answer::Refused(Refusal::UNSOUND))
    }

    // The same over a lent collection, which is left as it came where the packet is refused or ignored.
    pub fn take_packet(&mut self, cid: u32, packet: &[u8], buffer: &mut [u8]) -> Answer
        ensures { reading (record { collection = self.new; answer = result }) buffer.new ≡ read_of self.old cid packet.now buffer.old }
    {
        let progress = self.read(cid, packet, buffer);
        *self = progress.collection;
        progress.answer
    }
}

// The collection stays as it was.
fn left(collection: Collection, answer: Answer) -> Progress
    ensures { result ≡ record { collection = collection; answer = answer } }
{
    Progress { collection, answer }
}

// A packet of 64 bytes.
fn read_packet(collection: Collection, cid: u32, packet: &[u8], buffer: &mut [u8]) -> Progress
    requires { Admits collection packet.now buffer.old }
    ensures { reading result buffer.new ≡ heard_of collection (hear cid (length buffer.old) (collection_meant collection buffer.old) (read packet.now)) buffer.old }
{
    match packet::process_single_packet(packet) {
        Reading::Packet(processed) => {
            let data = packet::packet_data(packet);
            hear(collection, cid, processed, data, buffer)
        }
        // never: it has 64 bytes
        Reading::Refused(_) => left(collection, Answer::Ignored),
    }
}

// Packets of other channels, and continuations with none begun, are ignored. A wrong number, or a first packet inside a reply, is refused with 9.
fn hear(
    collection: Collection,
    cid: u32,
    packet: ProcessedPacket,
    data: &[u8],
    buffer: &mut [u8],
) -> Progress
    requires { Hears collection (heard packet «data».now) buffer.old }
    ensures { reading result buffer.new ≡ heard_of collection (hear cid (length buffer.old) (collection_meant collection buffer.old) (heard packet «data».now)) buffer.old }
{
    match packet {
        ProcessedPacket::InitPacket {
            cid: from,
            cmd,
            len,
        } => {
            if from != cid {
                left(collection, Answer::Ignored)
            } else if collection.len != 0 {
                left(collection, Answer::Refused(Refusal::SEQUENCE))
            } else {
                first(collection, cmd, len, data, buffer)
            }
        }
        ProcessedPacket::ContinuationPacket { cid: from, seq } => {
            if from != cid {
                left(collection, Answer::Ignored)
            } else if collection.len == 0 {
                left(collection, Answer::Ignored)
            } else if seq != collection.seq {
                left(collection, Answer::Refused(Refusal::SEQUENCE))
            } else {
                let due = collection.seq;
                let next = Collection {
                    len: collection.len,
                    taken: collection.taken,
                    cmd: collection.cmd,
                    seq: due + 1,
                };
                gather(next, data, buffer)
            }
        }
    }
}

// A first packet with none begun.
fn first(collection: Collection, cmd: u8, len: usize, data: &[u8], buffer: &mut [u8]) -> Progress
    requires { 0 < length «data».now }
    ensures { reading result buffer.new ≡ heard_of collection (pick (eqb cmd 0x3b) (alive len «data».now) (begin (length buffer.old) cmd len «data».now)) buffer.old }
{
    if cmd == CtapHidCommand::KEEPALIVE {
        return alive(collection, len, data);
    }
    begin(collection, cmd, len, data, buffer)
}

// A KEEPALIVE is told, and not collected.
fn alive(collection: Collection, len: usize, data: &[u8]) -> Progress
    requires { 0 < length «data».now }
    ensures { (m : List ℕ) → reading result m ≡ heard_of collection (alive len «data».now) m }
{
    if len != 1 {
        return left(collection, Answer::Refused(Refusal::LONG_REPLY));
    }
    left(collection, Answer::Keepalive(data[0]))
}

// A reply that there is no room for is refused with 10.
fn begin(collection: Collection, cmd: u8, len: usize, data: &[u8], buffer: &mut [u8]) -> Progress
    ensures { reading result buffer.new ≡ heard_of collection (begin (length buffer.old) cmd len «data».now) buffer.old }
{
    if len > Limits::LARGEST_PAYLOAD {
        return left(collection, Answer::Refused(Refusal::LONG_REPLY));
    }
    if len > buffer.len() {
        return left(collection, Answer::Refused(Refusal::LONG_REPLY));
    }
    let begun = Collection {
        len: len as u16,
        taken: 0,
        cmd,
        seq: FIRST_SEQ,
    };
    gather(begun, data, buffer)
}

// Continuations are numbered from 0.
const FIRST_SEQ: u8 = 0;

// Data is added up to the declared length; then the reply is handed out, and none is begun.
fn gather(collection: Collection, data: &[u8], buffer: &mut [u8]) -> Progress
    requires { Adds collection buffer.old }
    ensures { reading result buffer.new ≡ heard_of collection (gather (begun_of collection buffer.old) «data».now) buffer.old }
{
    let len = collection.len as usize;
    match collect::add_data(buffer, collection.taken as usize, len, data) {
        Added::Waiting(n) => {
            let next = Collection {
                len: collection.len,
                taken: n as u16,
                cmd: collection.cmd,
                seq: collection.seq,
            };
            left(next, Answer::Waiting)
        }
        Added::Whole => finished(collection.cmd, len),
        // never: the lengths stand
        Added::Refused(_) => left(collection, Answer::Waiting),
    }
}

// The reply is all there, and none is begun.
fn finished(cmd: u8, len: usize) -> Progress
    ensures { result ≡ record { collection = none_begun; answer = Answer.Reply cmd len } }
{
    Progress {
        collection: Collection {
            len: 0,
            taken: 0,
            cmd: 0,
            seq: 0,
        },
        answer: Answer::Reply { cmd, len },
    }
}
