// The C boundary by value: every answer as numbers. The exported entries are thin over these.
#![tactic(auto)]

mod fragments;
mod waiting;

ghost use Rattle.std.specs.Prelude.{◌≡◌};
ghost use Rattle.hid.specs.Transport.{step_of};
ghost use Rattle.hid.specs.MainHid.{main_step_of};
ghost use Rattle.hid.specs.SetUp.{new_of, main_new_of};
ghost use Rattle.hid.specs.Questions.{locked_of, winking_of};
ghost use Rattle.ctaphid.specs.Host.{init_of};
ghost use Rattle.packet.specs.Reading.{reading_of};
ghost use Rattle.host.specs.Reading.{read_of};
ghost use Rattle.send.specs.Sending.{count_of, write_of, split_of};
ghost use Rattle.flat.specs.Telling.{is_set, outcome_of, read_outcome, count_outcome, running_number, packet_outcome, written_number, made_of, main_made_of, flat, flat_of, main_flat, main_flat_of, put, put_of, host_outcome_of, host_flat, host_flat_of, init_outcome_of, no_fields};

pub use fragments::{ble_fragment_count, ble_read_fragment, ble_write_fragment};
use hid::{Answer, CtapHid, MainHid, MainReady, Ready, Running};
use host::{Collection, InitAnswer};
use packet::{ProcessedPacket, Reading};
use send::{Count, Written};
pub use waiting::{
    Ending, FlatWait, MadeWait, Presence, Sent, WaitOutcome, wait_begin, wait_elapsed, wait_step,
};

// Which fields of an outcome say something, by its kind. The others are 0.
#[derive(Clone, Copy)]
pub struct Kind;

impl Kind {
    // refusal: its number, of docs/RULES.md.
    pub const REFUSED: u8 = 0;

    pub const NOTHING: u8 = 1;

    // A message that is handed out, in the message buffer: cid, cmd, len.
    pub const MESSAGE: u8 = 2;

    // A reply in the message buffer: cid, cmd, len.
    pub const ECHO: u8 = 3;

    // A reply in the short reply buffer: cid, cmd, len.
    pub const REPLY: u8 = 4;

    // A first packet: cid, cmd, and the declared length in len. Its data begins at byte 7.
    pub const FIRST: u8 = 5;

    // A continuation packet: cid, and its number in cmd. Its data begins at byte 5.
    pub const CONTINUATION: u8 = 6;

    // A count, in len: of packets or fragments, or of the bytes of a fragment.
    pub const COUNT: u8 = 7;

    // Host: a packet of another channel, or a continuation with no reply begun.
    pub const IGNORED: u8 = 8;

    // Host: a KEEPALIVE, its status byte in cmd.
    pub const KEEPALIVE: u8 = 9;

    // Host, Bluetooth: the packet or fragment is taken, and more is due.
    pub const WAITING: u8 = 10;

    // Host, Bluetooth: a whole reply or message at the front of the buffer: cmd, len.
    pub const COLLECTED: u8 = 11;
}

#[repr(C)]
#[derive(Clone, Copy)]
pub struct Outcome {
    pub len: usize,
    pub cid: u32,
    pub kind: u8,
    pub cmd: u8,
    pub refusal: u8,
    pub spare: u8,
}

fn told(kind: u8, cid: u32, cmd: u8, len: usize) -> Outcome
    ensures { result ≡ record { len = len; cid = cid; kind = kind; cmd = cmd; refusal = 0; spare = 0 } }
{
    Outcome {
        len,
        cid,
        kind,
        cmd,
        refusal: 0,
        spare: 0,
    }
}

fn refused(number: u8) -> Outcome
    ensures { result ≡ record { len = 0; cid = 0; kind = 0; cmd = 0; refusal = number; spare = 0 } }
{
    Outcome {
        len: 0,
        cid: 0,
        kind: Kind::REFUSED,
        cmd: 0,
        refusal: number,
        spare: 0,
    }
}

pub fn outcome_of(answer: Answer) -> Outcome
    ensures { result ≡ outcome_of answer }
{
    match answer {
        Answer::Refused(number) => refused(number),
        Answer::Nothing => told(Kind::NOTHING, 0, 0, 0),
        Answer::Message { cid, cmd, len } => told(Kind::MESSAGE, cid, cmd.number(), len),
        Answer::Echo { cid, cmd, len } => told(Kind::ECHO, cid, cmd.number(), len),
        Answer::Reply { cid, cmd, len } => told(Kind::REPLY, cid, cmd.number(), len),
    }
}

// ---- the transport and the device

#[derive(Clone, Copy)]
pub struct FlatHid {
    pub hid: CtapHid,
    pub outcome: Outcome,
}

pub fn transport_step(
    hid: CtapHid,
    time: u64,
    disabled: u8,
    packet: &[u8],
    message: &mut [u8],
    reply: &mut [u8],
) -> FlatHid
    ensures { flat result message.new reply.new ≡ flat_of (step_of hid time (is_set disabled) packet.now message.old reply.old) }
{
    let stepped = hid.step(time, disabled != 0, packet, message, reply);
    let answer = stepped.answer;
    let outcome = outcome_of(answer);
    let next = stepped.hid;
    FlatHid { hid: next, outcome }
}

#[derive(Clone, Copy)]
pub struct FlatMain {
    pub hid: MainHid,
    pub outcome: Outcome,
}

pub fn device_step(
    hid: MainHid,
    time: u64,
    disabled: u8,
    packet: &[u8],
    message: &mut [u8],
    reply: &mut [u8],
) -> FlatMain
    ensures { main_flat result message.new reply.new ≡ main_flat_of (main_step_of hid time (is_set disabled) packet.now message.old reply.old) }
{
    let stepped = hid.step(time, disabled != 0, packet, message, reply);
    let answer = stepped.answer;
    let outcome = outcome_of(answer);
    let next = stepped.hid;
    FlatMain { hid: next, outcome }
}

// 0 for no, 1 for yes, else the refusal's number, 3 or 4.
pub fn running_number(running: Running) -> u8
    ensures { result ≡ running_number running }
{
    match running {
        Running::No => 0,
        Running::Yes => 1,
        Running::Refused(number) => number,
    }
}

pub fn is_locked(hid: CtapHid, time: u64) -> u8
    ensures { result ≡ running_number (locked_of hid time) }
{
    running_number(hid.is_locked_at(time))
}

pub fn is_winking(hid: MainHid, time: u64) -> u8
    ensures { result ≡ running_number (winking_of hid time) }
{
    running_number(hid.is_winking_at(time))
}

// ---- set-up: a refused one leaves the state as it came

#[derive(Clone, Copy)]
pub struct MadeHid {
    pub hid: CtapHid,
    pub refusal: u8,
}

pub fn transport_new(old: CtapHid, max: usize, u2f: u8, vendor: &[u8]) -> MadeHid
    ensures { result ≡ made_of old (new_of max (is_set u2f) vendor.now) }
{
    match CtapHid::new(max, u2f != 0, vendor) {
        Ready::Hid(hid) => MadeHid { hid, refusal: 0 },
        Ready::Refused(number) => MadeHid {
            hid: old,
            refusal: number,
        },
    }
}

#[derive(Clone, Copy)]
pub struct MadeMain {
    pub hid: MainHid,
    pub refusal: u8,
}

pub fn device_new(old: MainHid, max: usize, u2f: u8, vendor: &[u8]) -> MadeMain
    ensures { result ≡ main_made_of old (main_new_of max (is_set u2f) vendor.now) }
{
    match MainHid::new(max, u2f != 0, vendor) {
        MainReady::Hid(hid) => MadeMain { hid, refusal: 0 },
        MainReady::Refused(number) => MadeMain {
            hid: old,
            refusal: number,
        },
    }
}

// ---- packets

pub fn read_packet(packet: &[u8]) -> Outcome
    ensures { result ≡ read_outcome (reading_of packet.now) }
{
    match packet::process_single_packet(packet) {
        Reading::Packet(processed) => packet_outcome(processed),
        Reading::Refused(number) => refused(number),
    }
}

fn packet_outcome(packet: ProcessedPacket) -> Outcome
    ensures { result ≡ packet_outcome packet }
{
    match packet {
        ProcessedPacket::InitPacket { cid, cmd, len } => told(Kind::FIRST, cid, cmd, len),
        ProcessedPacket::ContinuationPacket { cid, seq } => {
            told(Kind::CONTINUATION, cid, seq, 0)
        }
    }
}

pub fn packet_count(len: usize) -> Outcome
    ensures { result ≡ count_outcome (count_of len) }
{
    match send::packet_count(len) {
        Count::Packets(count) => told(Kind::COUNT, 0, 0, count),
        Count::Refused(number) => refused(number),
    }
}

// 0 where the packet was written, else the refusal's number.
pub fn write_packet(cid: u32, cmd: u8, payload: &[u8], index: usize, packet: &mut [u8]) -> u8
    ensures { put result packet.new ≡ put_of (write_of cid cmd payload.now index packet.old) }
{
    let written = send::write_packet(cid, cmd, payload, index, packet);
    written_number(written)
}

pub fn split_message(
    cid: u32,
    cmd: u8,
    payload: &[u8],
    internal_error: u8,
    index: usize,
    packet: &mut [u8],
) -> u8
    ensures { put result packet.new ≡ put_of (split_of cid cmd payload.now internal_error index packet.old) }
{
    let written = send::split_message(cid, cmd, payload, internal_error, index, packet);
    written_number(written)
}

fn written_number(written: Written) -> u8
    ensures { result ≡ written_number written }
{
    match written {
        Written::Packet => 0,
        Written::Refused(number) => number,
    }
}

// ---- the host

fn host_outcome(answer: host::Answer) -> Outcome
    ensures { result ≡ host_outcome_of answer }
{
    match answer {
        host::Answer::Refused(number) => refused(number),
        host::Answer::Ignored => told(Kind::IGNORED, 0, 0, 0),
        host::Answer::Keepalive(status) => told(Kind::KEEPALIVE, 0, status, 0),
        host::Answer::Waiting => told(Kind::WAITING, 0, 0, 0),
        host::Answer::Reply { cmd, len } => told(Kind::COLLECTED, 0, cmd, len),
    }
}

#[derive(Clone, Copy)]
pub struct FlatCollection {
    pub collection: Collection,
    pub outcome: Outcome,
}

pub fn host_read(
    collection: Collection,
    cid: u32,
    packet: &[u8],
    buffer: &mut [u8],
) -> FlatCollection
    ensures { host_flat result buffer.new ≡ host_flat_of (read_of collection cid packet.now buffer.old) }
{
    let progress = collection.read(cid, packet, buffer);
    let answer = progress.answer;
    let outcome = host_outcome(answer);
    let next = progress.collection;
    FlatCollection {
        collection: next,
        outcome,
    }
}

// The fields of a reply to INIT, and how many bytes follow: they begin at byte 17. refusal is 0, or 11, and then all else is 0.
#[repr(C)]
#[derive(Clone, Copy)]
pub struct InitOutcome {
    pub cid: u32,
    pub protocol: u8,
    pub major: u8,
    pub minor: u8,
    pub build: u8,
    pub capabilities: u8,
    pub refusal: u8,
    pub rest: u16,
    pub nonce: [u8; 8],
}

pub fn init_reply(cmd: u8, payload: &[u8]) -> InitOutcome
    ensures { result ≡ init_outcome_of (init_of cmd payload.now) }
{
    let reply = host::init_reply(cmd, payload);
    let nonce = reply.nonce;
    let answer = reply.answer;
    match answer {
        InitAnswer::Refused(number) => no_fields(number),
        InitAnswer::Fields {
            cid,
            protocol,
            major,
            minor,
            build,
            capabilities,
        } => InitOutcome {
            cid,
            protocol,
            major,
            minor,
            build,
            capabilities,
            refusal: 0,
            rest: host::init_rest(cmd, payload).len() as u16,
            nonce,
        },
    }
}

fn no_fields(number: u8) -> InitOutcome
    ensures { result ≡ no_fields number }
{
    InitOutcome {
        cid: 0,
        protocol: 0,
        major: 0,
        minor: 0,
        build: 0,
        capabilities: 0,
        refusal: number,
        rest: 0,
        nonce: [0; 8],
    }
}
