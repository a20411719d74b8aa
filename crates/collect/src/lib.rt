// A packet's data added to a message that is being put together: for the device's receiver and for the host's.
#![tactic(auto)]

ghost use Rattle.std.specs.Prelude.{◌≡◌, ◌+◌, ◌≤◌, length, ◌++◌, take, drop};
ghost use Rattle.collect.specs.Adding.{added, add_of};
ghost use Rattle.collect.specs.Standing.{is_standing};

use packet::Refusal;

#[derive(Clone, Copy)]
pub enum Added {
    // So many bytes are there, and more are due.
    Waiting(usize),
    // All that was declared is there.
    Whole,
    Refused(u8),
}

// Puts the data right after the bytes already taken, up to the declared length. Lengths that make no sense are refused with 3.
pub fn add_data(message: &mut [u8], taken: usize, len: usize, data: &[u8]) -> Added
    ensures { added result message.new ≡ add_of message.old taken len «data».now }
{
    if taken > len {
        return Added::Refused(Refusal::UNSOUND);
    }
    if len > message.len() {
        return Added::Refused(Refusal::UNSOUND);
    }
    let left = len - taken;
    if data.len() < left {
        put(message, taken, data);
        Added::Waiting(taken + data.len())
    } else {
        put(message, taken, &data[..left]);
        Added::Whole
    }
}

fn put(message: &mut [u8], at: usize, data: &[u8])
    requires { at + length «data».now ≤ length message.old }
    ensures { message.new ≡ take at message.old ++ («data».now ++ drop (at + length «data».now) message.old) }
{
    copy(data, &mut message[at..]);
}

// A loop, because copy_from_slice would call C's memmove where the size isn't known, and the archive must need no symbol from outside.
fn copy(src: &[u8], dst: &mut [u8])
    requires { length src.now ≤ length dst.old }
    ensures { dst.new ≡ src.now ++ drop (length src.now) dst.old }
{
    let mut i = 0;
    while i < src.len() {
        dst[i] = src[i];
        i += 1;
    }
}

// Whether the lengths and the number due of a message that is half there make sense. One of 57 bytes or fewer is never half there.
pub fn stands(most: usize, len: usize, taken: usize, seq: u16) -> bool
    ensures { result ≡ is_standing most len taken seq }
{
    let at = 57 + 59 * (seq as usize);
    if len <= 57 {
        return false;
    }
    if len > most {
        return false;
    }
    if len <= at {
        return false;
    }
    at == taken
}
