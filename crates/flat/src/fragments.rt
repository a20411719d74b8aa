// Bluetooth's fragments at the C boundary.
ghost use Rattle.std.specs.Prelude.{◌≡◌};
ghost use Rattle.ble.specs.Writing.{count_of, write_of};
ghost use Rattle.ble.specs.Reading.{read_of};
ghost use Rattle.flat.specs.Telling.{host_flat};
ghost use Rattle.flat.specs.TellingFragments.{fragments_outcome, written_outcome, laid, laid_of, ble_outcome_of, ble_flat_of};

use crate::{FlatCollection, Kind, Outcome, refused, told};
use ble::{Answer, Count, Written};
use host::Collection;

pub fn ble_fragment_count(size: usize, len: usize) -> Outcome
    ensures { result ≡ fragments_outcome (count_of size len) }
{
    match ble::fragment_count(size, len) {
        Count::Fragments(count) => told(Kind::COUNT, 0, 0, count),
        Count::Refused(number) => refused(number),
    }
}

// How many bytes the fragment has, or the refusal.
pub fn ble_write_fragment(
    size: usize,
    cmd: u8,
    payload: &[u8],
    index: usize,
    buffer: &mut [u8],
) -> Outcome
    ensures { laid result buffer.new ≡ laid_of (write_of size cmd payload.now index buffer.old) }
{
    let written = ble::write_fragment(size, cmd, payload, index, buffer);
    written_outcome(written)
}

fn written_outcome(written: Written) -> Outcome
    ensures { result ≡ written_outcome written }
{
    match written {
        Written::Fragment(len) => told(Kind::COUNT, 0, 0, len),
        Written::Refused(number) => refused(number),
    }
}

pub fn ble_read_fragment(
    collection: Collection,
    size: usize,
    fragment: &[u8],
    buffer: &mut [u8],
) -> FlatCollection
    ensures { host_flat result buffer.new ≡ ble_flat_of (read_of collection size fragment.now buffer.old) }
{
    let progress = ble::read_fragment(collection, size, fragment, buffer);
    let answer = progress.answer;
    let outcome = ble_outcome(answer);
    let next = progress.collection;
    FlatCollection {
        collection: next,
        outcome,
    }
}

fn ble_outcome(answer: Answer) -> Outcome
    ensures { result ≡ ble_outcome_of answer }
{
    match answer {
        Answer::Refused(number) => refused(number),
        Answer::Waiting => told(Kind::WAITING, 0, 0, 0),
        Answer::Message { cmd, len } => told(Kind::COLLECTED, 0, cmd, len),
    }
}
