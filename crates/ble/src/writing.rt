// A message in fragments, one by one.
ghost use Rattle.std.specs.Prelude.{◌≡◌, [], ◌++◌, ◌+◌, ◌-◌, ◌/◌, ◌≤◌, length, get_or, take, drop};
ghost use Rattle.ctaphid.specs.Bluetooth.{fragments_written};
ghost use Rattle.ble.specs.Writing.{count_of, left, put, write_of, Puts};

use crate::{BleCommand, BleLimits, Count, Written};
use collect::Added;
use packet::Refusal;

// How many bytes of a fragment stand before its data.
pub(crate) const FIRST_HEAD: usize = 3;

pub(crate) const LATER_HEAD: usize = 1;

pub(crate) const NUMBERS: usize = 128;

// Refusals in the order 14, 7.
pub fn fragment_count(size: usize, len: usize) -> Count
    ensures { result ≡ count_of size len }
{
    if !BleLimits::is_size(size) {
        return Count::Refused(Refusal::FRAGMENT_SIZE);
    }
    if len > BleLimits::LARGEST_PAYLOAD {
        return Count::Refused(Refusal::LONG_PAYLOAD);
    }
    Count::Fragments(fragments_in(size, len))
}

// Writes the fragment at an index of a message to the front of the buffer. Refusals in the order 14, 2, 12, 7, 6.
pub fn write_fragment(
    size: usize,
    cmd: u8,
    payload: &[u8],
    index: usize,
    buffer: &mut [u8],
) -> Written
    ensures { left result buffer.new ≡ write_of size cmd payload.now index buffer.old }
{
    if !BleLimits::is_size(size) {
        return Written::Refused(Refusal::FRAGMENT_SIZE);
    }
    if buffer.len() < size {
        return Written::Refused(Refusal::SHORT_BUFFER);
    }
    if !BleCommand::is_command(cmd) {
        return Written::Refused(Refusal::COMMAND);
    }
    if payload.len() > BleLimits::LARGEST_PAYLOAD {
        return Written::Refused(Refusal::LONG_PAYLOAD);
    }
    if index >= fragments_in(size, payload.len()) {
        return Written::Refused(Refusal::INDEX);
    }
    Written::Fragment(put_fragment(size, cmd, payload, index, buffer))
}

// A later data field has two bytes more than the first, so this is what the definition counts.
fn fragments_in(size: usize, len: usize) -> usize
    requires { (20 ≤ size) × (len ≤ 65535) }
    ensures { result ≡ 1 + (len + 1) / (size - 1) }
{
    1 + (len + 1) / (size - LATER_HEAD)
}

// The fragment at an index that there is.
fn put_fragment(size: usize, cmd: u8, payload: &[u8], index: usize, buffer: &mut [u8]) -> usize
    requires { Puts size payload.now index buffer.old }
    ensures { left (Written.Fragment result) buffer.new ≡ put (get_or (fragments_written size cmd payload.now) index []) buffer.old }
{
    if index == 0 {
        let len = payload.len();
        let head = [cmd, (len / 0x100) as u8, (len % 0x100) as u8];
        return lay(size, &head, payload, buffer);
    }
    let seq = index - 1;
    let at = size - FIRST_HEAD + (size - LATER_HEAD) * seq;
    let head = [(seq % NUMBERS) as u8];
    lay(size, &head, &payload[at..], buffer)
}

// A head, and as much of the data behind it as the fragment has room for. What is behind these stays as it was.
fn lay(size: usize, head: &[u8], data: &[u8], buffer: &mut [u8]) -> usize
    requires { (length head.now ≤ size) × (size ≤ length buffer.old) }
    ensures { left (Written.Fragment result) buffer.new ≡ put (head.now ++ take (size - length head.now) «data».now) buffer.old }
{
    copy(head, buffer);
    match collect::add_data(buffer, head.len(), size, data) {
        Added::Waiting(n) => n,
        Added::Whole => size,
        // never: the lengths stand
        Added::Refused(_) => size,
    }
}

// A loop, because copy_from_slice would call C's memmove where the size isn't known, and the archive must need no symbol from outside.
fn copy(src: &[u8], dst: &mut [u8])
    requires { length src.now ≤ length dst.old }
    ensures { dst.new ≡ src.now ++ drop (length src.now) dst.old }
{
    let mut i = 0;
    while i < src.len() {
        dst[i] = src[i];
        i += 1;
    }
}
