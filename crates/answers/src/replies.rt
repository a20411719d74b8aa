// Replies that the device makes up itself.
ghost use Rattle.std.specs.Prelude.{◌≡◌, [], ◌∷◌};
ghost use Rattle.ctaphid.specs.Commands.{ERROR};
ghost use Rattle.ctaphid.specs.Transport as standard;
ghost use Rattle.answers.specs.Replies.{answering, laid_of};

use crate::Answer;
use packet::{CtapHidCommand, Limits, Refusal};

// An ERROR. A short reply buffer of fewer than 17 bytes is refused with 2.
pub fn error_message(cid: u32, error: u8, reply: &mut [u8]) -> Answer
    ensures { answering result reply.new ≡ laid_of (standard.reply cid ERROR (error ∷ [])) reply.old }
{
    if reply.len() < Limits::SHORT_REPLY_SIZE {
        return Answer::Refused(Refusal::SHORT_BUFFER);
    }
    reply[0] = error;
    Answer::Reply {
        cid,
        cmd: CtapHidCommand::Error,
        len: 1,
    }
}
