// A state with another time or transaction, and answers that leave it as it is.
ghost use Rattle.std.specs.Prelude.{◌≡◌, [], ◌∷◌, ◌≤◌, length};
ghost use Rattle.ctaphid.specs.Commands.{ERROR};
ghost use Rattle.ctaphid.specs.Transport as standard;
ghost use Rattle.hid.specs.State.{having, arriving, serving, keeping};

use crate::{Answer, CtapHid, MessageAssembler, Stepped};

// The time is now the last one. What stands in an assembler without a transaction is cleared.
pub(crate) fn at_time(hid: CtapHid, time: u64) -> CtapHid
    ensures { result ≡ arriving hid time }
{
    let assembler = hid.assembler;
    if assembler.len == 0 {
        let cleared = MessageAssembler::new();
        return with_assembler(hid, time, cleared, hid.still_due);
    }
    with_assembler(hid, time, assembler, hid.still_due)
}

pub(crate) fn with_assembler(
    hid: CtapHid,
    last: u64,
    assembler: MessageAssembler,
    due: u16,
) -> CtapHid
    ensures { result ≡ having hid last assembler due }
{
    let mut next = hid;
    next.assembler = assembler;
    next.last = last;
    next.still_due = due;
    next
}

pub(crate) fn no_message(hid: CtapHid) -> Stepped
    ensures { result ≡ record { hid = hid; answer = Answer.Nothing } }
{
    Stepped {
        hid,
        answer: Answer::Nothing,
    }
}

pub(crate) fn error_message(hid: CtapHid, cid: u32, error: u8, reply: &mut [u8]) -> Stepped
    requires { 17 ≤ length reply.old }
    ensures { serving result reply.new ≡ keeping hid (standard.reply cid ERROR (error ∷ [])) reply.old }
{
    let answer = answers::error_message(cid, error, reply);
    Stepped { hid, answer }
}
