// Where an answer's payload lies: a part of one of the two buffers that were lent to the step.
ghost use Rattle.std.specs.Prelude.{◌≡◌};
ghost use Rattle.answers.specs.Payloads.{IsPayload, IsFront};

use crate::Answer;

// An answer without a payload, or with more bytes than its buffer has, gets an empty part.
pub fn payload<'a>(answer: Answer, message: &'a [u8], reply: &'a [u8]) -> &'a [u8]
    ensures { IsPayload answer message.entry reply.entry result }
{
    match answer {
        Answer::Message {
            cid: _,
            cmd: _,
            len,
        } => up_to(message, len),
        Answer::Echo {
            cid: _,
            cmd: _,
            len,
        } => up_to(message, len),
        Answer::Reply {
            cid: _,
            cmd: _,
            len,
        } => up_to(reply, len),
        Answer::Nothing => &message[..0],
        Answer::Refused(_) => &message[..0],
    }
}

fn up_to<'a>(buffer: &'a [u8], len: usize) -> &'a [u8]
    ensures { IsFront len buffer.entry result }
{
    if len <= buffer.len() {
        return &buffer[..len];
    }
    &buffer[..0]
}
