// LOCK.
ghost use Rattle.std.specs.Prelude.{◌≡◌, ◌≤◌, length};
ghost use Rattle.ctaphid.specs.Transport.{on_lock};
ghost use Rattle.channels.specs.Locking.{held, locking, locked_by, lock_of};

use crate::Locked;
use answers::Answer;
use packet::{CtapHidCommand, CtapHidError, Limits, Refusal};

const LONGEST_LOCK_S: u8 = 10;

// A LOCK with this payload at a time, while the device is locked so. Refusals in the order 2, 4.
pub fn lock(lock: u64, locked: u32, time: u64, cid: u32, payload: &[u8], reply: &mut [u8]) -> Locked
    ensures { locking result reply.new ≡ lock_of (record { holder = locked; until = lock }) time cid payload.now reply.old }
{
    if reply.len() < Limits::SHORT_REPLY_SIZE {
        return Locked {
            lock,
            locked,
            answer: Answer::Refused(Refusal::SHORT_BUFFER),
        };
    }
    if time > Limits::LAST_TIME_MS {
        return Locked {
            lock,
            locked,
            answer: Answer::Refused(Refusal::TIME),
        };
    }
    answer_lock(lock, locked, time, cid, payload, reply)
}

fn answer_lock(
    lock: u64,
    locked: u32,
    time: u64,
    cid: u32,
    payload: &[u8],
    reply: &mut [u8],
) -> Locked
    requires { (time ≤ 0xffff_ffff_ffff) × (17 ≤ length reply.old) }
    ensures { locking result reply.new ≡ locked_by (on_lock (held (record { holder = locked; until = lock })) time cid payload.now) reply.old }
{
    if payload.len() != 1 {
        let answer = answers::error_message(cid, CtapHidError::INVALID_LEN, reply);
        return Locked {
            lock,
            locked,
            answer,
        };
    }
    let seconds = payload[0];
    if seconds > LONGEST_LOCK_S {
        let answer = answers::error_message(cid, CtapHidError::INVALID_PAR, reply);
        return Locked {
            lock,
            locked,
            answer,
        };
    }
    if seconds == 0 {
        return lock_message(0, 0, cid);
    }
    lock_message(time + 1000 * (seconds as u64), cid, cid)
}

fn lock_message(lock: u64, locked: u32, cid: u32) -> Locked
    ensures { result ≡ record { lock = lock; locked = locked; answer = Answer.Reply cid CtapHidCommand.Lock 0 } }
{
    Locked {
        lock,
        locked,
        answer: Answer::Reply {
            cid,
            cmd: CtapHidCommand::Lock,
            len: 0,
        },
    }
}
