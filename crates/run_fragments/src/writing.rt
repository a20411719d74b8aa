// What the writer answers, and the whole of the buffer that it was lent.
use ble::{BleCommand, Count, Written};
use report::{hex, print, text};

pub(crate) fn counts(rt: &impl Print) {
    text(rt, b"how many fragments, by size and length\n");
    for (size, len) in COUNTED {
        count(rt, size, len);
    }
}

const COUNTED: [(usize, usize); 12] = [
    (20, 0),
    (20, 17),
    (20, 18),
    (20, 36),
    (20, 37),
    (20, 65535),
    (512, 509),
    (512, 510),
    (512, 65535),
    (20, 65536),
    (19, 65536),
    (513, 0),
];

fn count(rt: &impl Print, size: usize, len: usize) {
    number(rt, size);
    text(rt, b" ");
    number(rt, len);
    text(rt, b": ");
    match ble::fragment_count(size, len) {
        Count::Fragments(n) => number(rt, n),
        Count::Refused(number) => refused(rt, number),
    }
    text(rt, b"\n");
}

fn number(rt: &impl Print, n: usize) {
    print(rt, n);
}

fn refused(rt: &impl Print, refusal: u8) {
    text(rt, b"refused ");
    number(rt, refusal as usize);
}

const FORTY: [u8; 40] = [
    1, 2, 3, 4, 5, 6, 7, 8, 9, 10, 11, 12, 13, 14, 15, 16, 17, 18, 19, 20, 21, 22, 23, 24, 25, 26,
    27, 28, 29, 30, 31, 32, 33, 34, 35, 36, 37, 38, 39, 40,
];

pub(crate) fn example(rt: &impl Print) {
    text(rt, b"40 bytes at 20, in a buffer of 22\n");
    for index in 0..4 {
        write(rt, 20, BleCommand::PING, &FORTY, index, &mut [0xEE; 22]);
    }
}

// A head alone; data that fills the first fragment; one byte more.
pub(crate) fn sizes(rt: &impl Print) {
    let forty = FORTY;
    text(rt, b"0, 17 and 18 bytes at 20\n");
    write(rt, 20, BleCommand::CANCEL, &forty[..0], 0, &mut [0xEE; 20]);
    write(rt, 20, BleCommand::MSG, &forty[..17], 0, &mut [0xEE; 20]);
    write(rt, 20, BleCommand::MSG, &forty[..17], 1, &mut [0xEE; 20]);
    write(
        rt,
        20,
        BleCommand::KEEPALIVE,
        &forty[..18],
        0,
        &mut [0xEE; 20],
    );
    write(rt, 20, BleCommand::ERROR, &forty[..18], 1, &mut [0xEE; 20]);
}

// Each call has all that is wrong with the next one.
pub(crate) fn refusals(rt: &impl Print) {
    let long = [7u8; 65536];
    text(rt, b"the writer's refusals, in order\n");
    write(rt, 19, 0x84, &long, 70000, &mut [0xEE; 18]);
    write(rt, 513, 0x84, &long, 70000, &mut [0xEE; 23]);
    write(rt, 20, 0x84, &long, 70000, &mut [0xEE; 19]);
    write(rt, 20, 0x84, &long, 70000, &mut [0xEE; 20]);
    write(rt, 20, BleCommand::PING, &long, 70000, &mut [0xEE; 20]);
    write(
        rt,
        20,
        BleCommand::PING,
        &long[..65535],
        3450,
        &mut [0xEE; 20],
    );
    write(
        rt,
        20,
        BleCommand::PING,
        &long[..65535],
        3449,
        &mut [0xEE; 20],
    );
    write(rt, 20, 0x01, &long[..1], 0, &mut [0xEE; 20]);
    write(rt, 20, 0xFF, &long[..1], 0, &mut [0xEE; 20]);
}

fn write(rt: &impl Print, size: usize, cmd: u8, payload: &[u8], index: usize, buffer: &mut [u8]) {
    match ble::write_fragment(size, cmd, payload, index, buffer) {
        Written::Fragment(n) => number(rt, n),
        Written::Refused(refusal) => refused(rt, refusal),
    }
    text(rt, b": ");
    hex(rt, buffer);
    text(rt, b"\n");
}
