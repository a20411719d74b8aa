// Whose packets are heard.
ghost use Rattle.std.specs.Prelude.{◌≡◌, []};
ghost use Rattle.ctaphid.specs.Transport.{is_allocated, is_valid, is_shut, not_valid};
ghost use Rattle.packet.specs.Reading.{heard};
ghost use Rattle.answers.specs.Replies.{answering, laid_of};

use crate::BROADCAST;
use answers::Answer;
use packet::{CtapHidCommand, CtapHidError, ProcessedPacket};

pub fn is_allocated(allocated: u32, cid: u32) -> bool
    ensures { result ≡ is_allocated allocated cid }
{
    if cid < 1 {
        return false;
    }
    cid <= allocated
}

// Check 1. Only INIT uses the broadcast channel.
pub fn has_valid_channel(allocated: u32, packet: ProcessedPacket) -> bool
    ensures { result ≡ is_valid allocated (heard packet []) }
{
    match packet {
        ProcessedPacket::InitPacket { cid, cmd, len: _ } => {
            if cid == BROADCAST {
                return cmd == CtapHidCommand::INIT;
            }
            is_allocated(allocated, cid)
        }
        ProcessedPacket::ContinuationPacket { cid, seq: _ } => {
            if cid == BROADCAST {
                return false;
            }
            is_allocated(allocated, cid)
        }
    }
}

// Check 2: the transport is disabled, or another channel's lock runs.
pub fn is_shut(lock: u64, locked: u32, time: u64, disabled: bool, cid: u32) -> bool
    ensures { result ≡ is_shut (record { holder = locked; until = lock }) time disabled cid }
{
    if disabled {
        return true;
    }
    if time < lock {
        return locked != cid;
    }
    false
}

// A packet on a channel that isn't valid. Refusal 2, where it is told so.
pub fn not_valid(packet: ProcessedPacket, reply: &mut [u8]) -> Answer
    ensures { answering result reply.new ≡ laid_of (not_valid (heard packet [])) reply.old }
{
    match packet {
        ProcessedPacket::InitPacket {
            cid,
            cmd: _,
            len: _,
        } => answers::error_message(cid, CtapHidError::INVALID_CHANNEL, reply),
        ProcessedPacket::ContinuationPacket { cid: _, seq: _ } => Answer::Nothing,
    }
}
