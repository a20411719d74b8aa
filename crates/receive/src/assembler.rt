// A packet meets a transaction, or none.
ghost use Rattle.std.specs.Prelude.{◌≡◌, ◌≤◌, length};
ghost use Rattle.ctaphid.specs.Receiver.{collect, start, when_idle, when_over, on_own, when_busy, receive};
ghost use Rattle.packet.specs.Reading.{heard};
ghost use Rattle.known.specs.Meaning.{settings_of};
ghost use Rattle.receive.specs.Meaning.{none, transaction_of, receiver_of};
ghost use Rattle.receive.specs.Assembler.{is_sound, assembling, assembled_of, refusal_of, parsed_of, Adds, Receives};

use crate::{Assembled, MessageAssembler, Received};
use collect::Added;
use packet::{CtapHidCommand, CtapHidError, Limits, ProcessedPacket, Refusal};

impl MessageAssembler {
    // No transaction.
    pub fn new() -> MessageAssembler
        ensures { result ≡ none }
    {
        MessageAssembler {
            deadline: 0,
            cid: 0,
            len: 0,
            taken: 0,
            cmd: 0,
            seq: 0,
        }
    }

    // No transaction, or one whose numbers make sense: the list of docs/RULES.md, but for channel and deadline.
    pub fn is_sound(self, max: u32) -> bool
        ensures { result ≡ is_sound self max }
    {
        if self.len == 0 {
            return true;
        }
        if self.cmd > 127 {
            return false;
        }
        collect::stands(
            max as usize,
            self.len as usize,
            self.taken as usize,
            self.seq,
        )
    }

    // A packet, and its data, at a time, to a device with this maximum and these vendor commands. Refusals in the order 2, 3, 4.
    pub fn parse_packet(
        self,
        max: u32,
        vendor: u64,
        time: u64,
        packet: ProcessedPacket,
        data: &[u8],
        message: &mut [u8],
    ) -> Assembled
        ensures { assembling result message.new ≡ parsed_of self max vendor time (heard packet «data».now) message.old }
    {
        let number = refusal(self, max, time, message.len());
        if number != 0 {
            return Assembled {
                assembler: self,
                received: Received::Refused(number),
            };
        }
        receive(self, max, vendor, time, packet, data, message)
    }
}

// Why a packet is refused: 2, 3, 4, or 0 where it isn't. The last is the message buffer's length.
fn refusal(assembler: MessageAssembler, max: u32, time: u64, message: usize) -> u8
    ensures { result ≡ refusal_of assembler max time message }
{
    if message < max as usize {
        return Refusal::SHORT_BUFFER;
    }
    if assembler.is_sound(max) {
        if time > Limits::LAST_TIME_MS {
            return Refusal::TIME;
        }
        return 0;
    }
    Refusal::UNSOUND
}

// No transaction, one whose time is over, or one that is on.
fn receive(
    assembler: MessageAssembler,
    max: u32,
    vendor: u64,
    time: u64,
    packet: ProcessedPacket,
    data: &[u8],
    message: &mut [u8],
) -> Assembled
    requires { Receives assembler max time message.old }
    ensures { assembling result message.new ≡ assembled_of (receive (settings_of max vendor) time (receiver_of assembler message.old) (heard packet «data».now)) message.old }
{
    if assembler.len == 0 {
        return when_idle(max, vendor, time, packet, data, message);
    }
    if assembler.deadline <= time {
        return when_over(assembler, max, vendor, time, packet, data, message);
    }
    when_busy(assembler, max, vendor, time, packet, data, message)
}

// Check 4: no transaction.
fn when_idle(
    max: u32,
    vendor: u64,
    time: u64,
    packet: ProcessedPacket,
    data: &[u8],
    message: &mut [u8],
) -> Assembled
    requires { Receives none max time message.old }
    ensures { assembling result message.new ≡ assembled_of (when_idle (settings_of max vendor) time (heard packet «data».now)) message.old }
{
    match packet {
        ProcessedPacket::InitPacket { cid, cmd, len } => {
            parse_init_packet(max, vendor, time, cid, cmd, len, data, message)
        }
        ProcessedPacket::ContinuationPacket { cid: _, seq: _ } => reset(Received::Nothing),
    }
}

// Check 3: the transaction's time is over.
fn when_over(
    assembler: MessageAssembler,
    max: u32,
    vendor: u64,
    time: u64,
    packet: ProcessedPacket,
    data: &[u8],
    message: &mut [u8],
) -> Assembled
    requires { Receives assembler max time message.old }
    ensures { assembling result message.new ≡ assembled_of (when_over (settings_of max vendor) time (transaction_of assembler message.old) (heard packet «data».now)) message.old }
{
    match packet {
        ProcessedPacket::InitPacket { cid, cmd, len } => {
            parse_init_packet(max, vendor, time, cid, cmd, len, data, message)
        }
        ProcessedPacket::ContinuationPacket { cid, seq: _ } => {
            if cid == assembler.cid {
                reset(Received::Error(CtapHidError::MSG_TIMEOUT))
            } else {
                reset(Received::Nothing)
            }
        }
    }
}

// Check 5: a live transaction.
fn when_busy(
    assembler: MessageAssembler,
    max: u32,
    vendor: u64,
    time: u64,
    packet: ProcessedPacket,
    data: &[u8],
    message: &mut [u8],
) -> Assembled
    requires receives { Receives assembler max time message.old }
    requires adds { Adds assembler message.old }
    ensures { assembling result message.new ≡ assembled_of (when_busy (settings_of max vendor) time (transaction_of assembler message.old) (heard packet «data».now)) message.old }
{
    if packet.channel() != assembler.cid {
        return busy(assembler);
    }
    on_own(assembler, max, vendor, time, packet, data, message)
}

// A packet on the transaction's own channel.
fn on_own(
    assembler: MessageAssembler,
    max: u32,
    vendor: u64,
    time: u64,
    packet: ProcessedPacket,
    data: &[u8],
    message: &mut [u8],
) -> Assembled
    requires receives { Receives assembler max time message.old }
    requires adds { Adds assembler message.old }
    ensures { assembling result message.new ≡ assembled_of (on_own (settings_of max vendor) time (transaction_of assembler message.old) (heard packet «data».now)) message.old }
{
    match packet {
        ProcessedPacket::InitPacket { cid, cmd, len } => {
            if cmd == CtapHidCommand::INIT {
                parse_init_packet(max, vendor, time, cid, cmd, len, data, message)
            } else {
                reset(Received::Error(CtapHidError::INVALID_SEQ))
            }
        }
        ProcessedPacket::ContinuationPacket { cid: _, seq } => {
            let due = assembler.seq;
            if seq as u16 != due {
                reset(Received::Error(CtapHidError::INVALID_SEQ))
            } else {
                let mut next = assembler;
                next.deadline = time + Limits::TIMEOUT_MS;
                next.seq = due + 1;
                append_payload(next, data, message)
            }
        }
    }
}

// An initialization packet that nothing stands against. Its command is asked before its length.
fn parse_init_packet(
    max: u32,
    vendor: u64,
    time: u64,
    cid: u32,
    cmd: u8,
    len: usize,
    data: &[u8],
    message: &mut [u8],
) -> Assembled
    requires { (max ≤ length message.old) × (time ≤ 0xffff_ffff_ffff) }
    ensures { assembling result message.new ≡ assembled_of (start (settings_of max vendor) time cid cmd len «data».now) message.old }
{
    if !known::knows(vendor, cmd) {
        return reset(Received::Error(CtapHidError::INVALID_CMD));
    }
    if len > max as usize {
        return reset(Received::Error(CtapHidError::INVALID_LEN));
    }
    let assembler = MessageAssembler {
        deadline: time + Limits::TIMEOUT_MS,
        cid,
        len: len as u32,
        taken: 0,
        cmd: cmd as u16,
        seq: 0,
    };
    append_payload(assembler, data, message)
}

// Check 6: data is added up to the declared length.
fn append_payload(assembler: MessageAssembler, data: &[u8], message: &mut [u8]) -> Assembled
    requires { Adds assembler message.old }
    ensures { assembling result message.new ≡ assembled_of (collect (transaction_of assembler message.old) «data».now) message.old }
{
    let taken = assembler.taken as usize;
    let len = assembler.len as usize;
    match collect::add_data(message, taken, len, data) {
        Added::Waiting(n) => {
            let mut next = assembler;
            next.taken = n as u32;
            Assembled {
                assembler: next,
                received: Received::Nothing,
            }
        }
        Added::Whole => {
            let cmd = assembler.cmd;
            reset(Received::Message {
                cid: assembler.cid,
                cmd: cmd as u8,
                len,
            })
        }
        // never: the lengths stand
        Added::Refused(_) => reset(Received::Nothing),
    }
}

// The transaction is over, or there was none.
fn reset(received: Received) -> Assembled
    ensures { result ≡ record { assembler = none; received = received } }
{
    let assembler = MessageAssembler::new();
    Assembled {
        assembler,
        received,
    }
}

// Another channel's packet: the transaction goes on.
fn busy(assembler: MessageAssembler) -> Assembled
    ensures { result ≡ record { assembler = assembler; received = Received.Error 6 } }
{
    Assembled {
        assembler,
        received: Received::Error(CtapHidError::CHANNEL_BUSY),
    }
}
