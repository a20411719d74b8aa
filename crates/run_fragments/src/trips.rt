// Long messages written and read, fragment by fragment.
use ble::{Answer, BleCommand, Written};
use host::Collection;
use report::{hex, print, text};

pub(crate) fn there_and_back(rt: &impl Print) {
    text(
        rt,
        b"there and back: how many fragments, how often number 0 came again, the last one, and what was read\n",
    );
    let mut payload = [0u8; 65535];
    count_up(&mut payload);
    for (size, len) in SENT {
        send(rt, size, &payload[..len]);
    }
}

// The size of a fragment, and how much of the message.
const SENT: [(usize, usize); 9] = [
    (20, 65535),
    (21, 65535),
    (511, 65535),
    (512, 65535),
    (512, 509),
    (512, 510),
    (20, 17),
    (20, 18),
    (20, 0),
];

fn count_up(payload: &mut [u8]) {
    for (i, byte) in payload.iter_mut().enumerate() {
        *byte = (i % 251) as u8;
    }
}

// In a buffer that is exactly as long as the message.
fn send(rt: &impl Print, size: usize, payload: &[u8]) {
    let mut all = [0u8; 65535];
    if payload.len() > 65535 {
        return;
    }
    trip(rt, size, payload, &mut all[..payload.len()]);
}

fn trip(rt: &impl Print, size: usize, payload: &[u8], buffer: &mut [u8]) {
    let mut room = [0u8; 512];
    let mut collection = Collection::new();
    let mut again = 0usize;
    for index in 0..4000 {
        let Written::Fragment(n) = ble::write_fragment(
            size,
            BleCommand::MSG,
            payload,
            index,
            &mut room,
        ) else {
            return;
        };
        let fragment = front(&room, n);
        let progress = ble::read_fragment(collection, size, fragment, buffer);
        collection = progress.collection;
        if is_number_0_again(index, fragment) {
            again = again.saturating_add(1);
        }
        if told(rt, progress.answer, buffer, payload, index + 1, again) {
            last(rt, fragment);
            return;
        }
    }
}

fn front(bytes: &[u8], len: usize) -> &[u8] {
    bytes.get(..len).unwrap_or(bytes)
}

// In a continuation past the first.
fn is_number_0_again(index: usize, fragment: &[u8]) -> bool {
    index >= 2 && fragment.first() == Some(&0)
}

// Whether that was all.
fn told(
    rt: &impl Print,
    answer: Answer,
    buffer: &[u8],
    payload: &[u8],
    count: usize,
    again: usize,
) -> bool {
    match answer {
        Answer::Waiting => false,
        Answer::Refused(number) => {
            print(rt, format_args!("refused {number}"));
            true
        }
        Answer::Message { cmd, len } => {
            print(rt, format_args!("{count}, {again}, {cmd:02x} of {len}"));
            if buffer == payload {
                text(rt, b" bytes, the same");
            } else {
                text(rt, b" bytes, others");
            }
            true
        }
    }
}

// Its first two bytes and its length.
fn last(rt: &impl Print, fragment: &[u8]) {
    text(rt, b"; ");
    hex(rt, front(fragment, 2));
    print(rt, format_args!(".. {}\n", fragment.len()));
}
