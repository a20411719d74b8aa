// Check 8 on vendor: there is no WINK, and no MSG without U2F.
ghost use Rattle.std.specs.Prelude.{◌≡◌};
ghost use Rattle.hid.specs.State.{serving};
ghost use Rattle.key.specs.VendorHid.{is_strange, finished_of};

use answers::Answer;
use hid::Stepped;
use packet::{CtapHidCommand, CtapHidError};

// A step that was refused met the last time that its fitness gave it: it leaves the one that there was.
pub(crate) fn finish(last: u64, stepped: Stepped, reply: &mut [u8]) -> Stepped
    ensures { serving result reply.new ≡ finished_of last stepped reply.old }
{
    let answer = stepped.answer;
    let hid = stepped.hid;
    match answer {
        Answer::Message { cid, cmd, len: _ } => {
            if is_strange(hid.u2f, cmd) {
                let told = answers::error_message(cid, CtapHidError::INVALID_CMD, reply);
                return Stepped { hid, answer: told };
            }
            stepped
        }
        Answer::Refused(_) => {
            let mut kept = hid;
            kept.last = last;
            Stepped { hid: kept, answer }
        }
        _ => stepped,
    }
}

fn is_strange(u2f: u8, cmd: CtapHidCommand) -> bool
    ensures { result ≡ is_strange u2f cmd }
{
    let number = cmd.number();
    if number == CtapHidCommand::WINK {
        return true;
    }
    if number == CtapHidCommand::MSG {
        return u2f == 0;
    }
    false
}
