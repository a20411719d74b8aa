// A fragment meets a collection. Each step has its counterpart in the definition.
ghost use Rattle.std.specs.Prelude.{◌≡◌, ◌+◌, ◌*◌, ◌≤◌, length, drop};
ghost use Rattle.ctaphid.specs.Packets.{byte};
ghost use Rattle.ctaphid.specs.Bluetooth.{initialization, continuation, gather, on_fragment, hear};
ghost use Rattle.host.specs.Meaning.{begun_of, collection_meant};
ghost use Rattle.ble.specs.Soundness.{Sound};
ghost use Rattle.ble.specs.Reading.{reading, laid, read_of, Follows};
ghost use Rattle.host.specs.Reading.{Adds};

use crate::soundness::is_sound;
use crate::writing::{FIRST_HEAD, LATER_HEAD, NUMBERS};
use crate::{Answer, BleLimits, Progress};
use collect::Added;
use host::Collection;
use packet::Refusal;

// A fragment, read at a fragment size. Refusals in the order 14, 3, 15, 16, 17, 18.
pub fn read_fragment(
    collection: Collection,
    size: usize,
    fragment: &[u8],
    buffer: &mut [u8],
) -> Progress
    ensures { reading result.collection result.answer buffer.new ≡ read_of collection size fragment.now buffer.old }
{
    if !BleLimits::is_size(size) {
        return left(collection, Answer::Refused(Refusal::FRAGMENT_SIZE));
    }
    if !is_sound(collection, buffer.len()) {
        return left(collection, Answer::Refused(Refusal::UNSOUND));
    }
    hear(collection, size, fragment, buffer)
}

// The same over a lent collection, which is left as it came where the fragment is refused.
pub fn take_fragment(
    collection: &mut Collection,
    size: usize,
    fragment: &[u8],
    buffer: &mut [u8],
) -> Answer
    ensures { reading collection.new result buffer.new ≡ read_of collection.old size fragment.now buffer.old }
{
    let progress = read_fragment(*collection, size, fragment, buffer);
    *collection = progress.collection;
    progress.answer
}

fn left(collection: Collection, answer: Answer) -> Progress
    ensures { result ≡ record { collection = collection; answer = answer } }
{
    Progress { collection, answer }
}

const FIRST_BIT: u8 = 0x80;

// A continuation has its head in one byte, so it may have no data. Only what begins a message can be longer than nothing and too short.
fn hear(collection: Collection, size: usize, fragment: &[u8], buffer: &mut [u8]) -> Progress
    requires { Sound collection (length buffer.old) }
    ensures { reading result.collection result.answer buffer.new ≡ laid collection (hear size (length buffer.old) (collection_meant collection buffer.old) fragment.now) buffer.old }
{
    let len = fragment.len();
    if len > size {
        return left(collection, Answer::Refused(Refusal::FRAGMENT_LENGTH));
    }
    if len < LATER_HEAD {
        return left(collection, Answer::Refused(Refusal::FRAGMENT_LENGTH));
    }
    if fragment[0] < FIRST_BIT {
        return later(collection, fragment, buffer);
    }
    if len < FIRST_HEAD {
        return left(collection, Answer::Refused(Refusal::FRAGMENT_LENGTH));
    }
    first(collection, fragment, buffer)
}

// A fragment that begins a message.
fn first(collection: Collection, fragment: &[u8], buffer: &mut [u8]) -> Progress
    requires { 3 ≤ length fragment.now }
    ensures { reading result.collection result.answer buffer.new ≡ laid collection (on_fragment (length buffer.old) (collection_meant collection buffer.old) (initialization (byte fragment.now 0) (byte fragment.now 1 * 0x100 + byte fragment.now 2) (drop 3 fragment.now))) buffer.old }
{
    if collection.len != 0 {
        return left(collection, Answer::Refused(Refusal::FRAGMENT_NUMBER));
    }
    let len = packet::be16(fragment[1], fragment[2]);
    if len > buffer.len() {
        return left(collection, Answer::Refused(Refusal::LONG_MESSAGE));
    }
    let begun = Collection {
        len: len as u16,
        taken: 0,
        cmd: fragment[0],
        seq: FIRST_SEQ,
    };
    gather(collection, begun, &fragment[FIRST_HEAD..], buffer)
}

// Continuations are numbered from 0.
const FIRST_SEQ: u8 = 0;

// A continuation.
fn later(collection: Collection, fragment: &[u8], buffer: &mut [u8]) -> Progress
    requires { Follows collection fragment.now buffer.old }
    ensures { reading result.collection result.answer buffer.new ≡ laid collection (on_fragment (length buffer.old) (collection_meant collection buffer.old) (continuation (byte fragment.now 0) (drop 1 fragment.now))) buffer.old }
{
    if collection.len == 0 {
        return left(collection, Answer::Refused(Refusal::FRAGMENT_NUMBER));
    }
    let due = collection.seq;
    if fragment[0] != due {
        return left(collection, Answer::Refused(Refusal::FRAGMENT_NUMBER));
    }
    let next = Collection {
        len: collection.len,
        taken: collection.taken,
        cmd: collection.cmd,
        seq: ((due as usize + 1) % NUMBERS) as u8,
    };
    gather(collection, next, &fragment[LATER_HEAD..], buffer)
}

// Data is added to begun; when all is there the message is handed out, and none is begun. More than was declared leaves the collection as it was.
fn gather(collection: Collection, begun: Collection, data: &[u8], buffer: &mut [u8]) -> Progress
    requires { Adds begun buffer.old }
    ensures { reading result.collection result.answer buffer.new ≡ laid collection (gather (collection_meant collection buffer.old) (begun_of begun buffer.old) «data».now) buffer.old }
{
    let len = begun.len as usize;
    let taken = begun.taken as usize;
    if data.len() > len - taken {
        return left(collection, Answer::Refused(Refusal::EXCESS));
    }
    match collect::add_data(buffer, taken, len, data) {
        Added::Waiting(n) => {
            let next = Collection {
                len: begun.len,
                taken: n as u16,
                cmd: begun.cmd,
                seq: begun.seq,
            };
            left(next, Answer::Waiting)
        }
        Added::Whole => left(
            Collection::new(),
            Answer::Message {
                cmd: begun.cmd,
                len,
            },
        ),
        // never: the lengths stand
        Added::Refused(_) => left(collection, Answer::Waiting),
    }
}
