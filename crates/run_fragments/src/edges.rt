// What the reader answers, and the collection and the whole of the buffer that it leaves.
use ble::Answer;
use host::Collection;
use report::{hex, print, text};

// At 20, with room for 5 bytes and none begun.
pub(crate) fn begins(rt: &impl Print) {
    text(rt, b"none begun\n");
    short(rt, Collection::new());
    whole(rt, Collection::new());
    long(rt, Collection::new());
    any_command(rt, Collection::new());
    text(rt, b"the same where numbers of no meaning were left\n");
    stale(rt, half(0, 9, 0x83, 200));
}

fn short(rt: &impl Print, none: Collection) {
    read(rt, none, b"");
    read(rt, none, b"\x81");
    read(rt, none, b"\x81\x00");
    read(rt, none, b"\x00");
    read(rt, none, b"\x00\x01");
}

fn whole(rt: &impl Print, none: Collection) {
    read(rt, none, b"\x81\x00\x00");
    read(rt, none, b"\x81\x00\x00\x01");
    read(rt, none, b"\x81\x00\x05");
    read(rt, none, b"\x83\x00\x05\x01\x02\x03\x04");
    read(rt, none, b"\x83\x00\x05\x01\x02\x03\x04\x05");
}

fn long(rt: &impl Print, none: Collection) {
    read(rt, none, b"\x83\x00\x05\x01\x02\x03\x04\x05\x06");
    read(rt, none, b"\x83\x00\x06");
    read(rt, none, b"\x83\x00\x06\x01\x02\x03\x04\x05\x06\x07");
    read(rt, none, b"\x83\x01\x00\x01");
}

fn any_command(rt: &impl Print, none: Collection) {
    read(rt, none, b"\x80\x00\x01\x09");
    read(rt, none, b"\xff\x00\x01\x09");
    read(rt, none, &[0x81; 20]);
    read(rt, none, &[0x81; 21]);
}

fn stale(rt: &impl Print, none: Collection) {
    read(rt, none, b"\x00");
    read(rt, none, b"\x81\x00\x01\x09");
    read(rt, none, b"\x81\x00\x05\x09");
}

// Three of 5 bytes are there, and 7 is due.
pub(crate) fn inside(rt: &impl Print) {
    text(rt, b"3 of 5 bytes are there\n");
    first_inside(rt, half(5, 3, 0x83, 7));
    later(rt, half(5, 3, 0x83, 7));
    wraps(rt);
}

fn first_inside(rt: &impl Print, begun: Collection) {
    read(rt, begun, b"");
    read(rt, begun, b"\x83");
    read(rt, begun, b"\x83\x00");
    read(rt, begun, b"\x83\x00\x05");
    read(rt, begun, b"\x83\x00\x06\x01\x02\x03\x04\x05\x06\x07");
}

fn later(rt: &impl Print, begun: Collection) {
    read(rt, begun, b"\x06\x01\x02");
    read(rt, begun, b"\x08\x01\x02");
    read(rt, begun, b"\x07");
    read(rt, begun, b"\x07\x01");
    read(rt, begun, b"\x07\x01\x02");
    read(rt, begun, b"\x07\x01\x02\x03");
    read(rt, begun, &[6; 20]);
    read(rt, begun, &[6; 21]);
}

fn wraps(rt: &impl Print) {
    read(rt, half(5, 3, 0x83, 127), b"\x7f\x01");
    read(rt, half(5, 3, 0x83, 127), b"\x00\x01");
    read(rt, half(5, 3, 0x83, 0), b"\x00\x01");
    read(rt, half(5, 0, 0x01, 0), b"\x00\x01\x02\x03\x04\x05");
}

// Each is wrong in one number, beside one that is right there. Sizes out of range come first.
pub(crate) fn unsound(rt: &impl Print) {
    text(
        rt,
        b"collections that are not sound, beside those that are\n",
    );
    lengths(rt);
    small_lengths(rt);
    numbers(rt);
    text(rt, b"sizes 19, 513 and 512\n");
    sizes(rt);
}

fn lengths(rt: &impl Print) {
    read(rt, half(5, 5, 0x83, 7), b"\x07");
    read(rt, half(5, 4, 0x83, 7), b"\x07");
    read(rt, half(5, 6, 0x83, 7), b"\x07");
    read(rt, half(6, 3, 0x83, 7), b"\x07");
    read(rt, half(65535, 3, 0x83, 7), b"\x07");
    read(rt, half(5, 65535, 0x83, 7), b"\x07");
}

fn small_lengths(rt: &impl Print) {
    read(rt, half(1, 0, 0x83, 7), b"\x07");
    read(rt, half(1, 1, 0x83, 7), b"\x07");
}

fn numbers(rt: &impl Print) {
    read(rt, half(5, 3, 0x83, 128), b"\x80");
    read(rt, half(5, 3, 0x83, 128), b"\x00");
    read(rt, half(5, 3, 0x83, 255), b"\x07");
    read(rt, half(5, 3, 0x00, 7), b"\x07\x01\x02");
    read(rt, half(5, 5, 0x83, 7), &[6; 21]);
}

fn sizes(rt: &impl Print) {
    read_at(rt, 19, half(5, 5, 0x83, 7), &[6; 21]);
    read_at(rt, 513, half(5, 5, 0x83, 7), b"");
    read_at(rt, 0, half(5, 3, 0x83, 7), b"\x07\x01\x02");
    read_at(rt, 512, half(5, 3, 0x83, 7), &[7; 512]);
    read_at(rt, 512, half(5, 3, 0x83, 7), &[7; 513]);
}

fn half(len: u16, taken: u16, cmd: u8, seq: u8) -> Collection {
    Collection {
        len,
        taken,
        cmd,
        seq,
    }
}

fn read(rt: &impl Print, collection: Collection, fragment: &[u8]) {
    read_at(rt, 20, collection, fragment);
}

fn read_at(rt: &impl Print, size: usize, collection: Collection, fragment: &[u8]) {
    let mut buffer = [0xAA, 0xBB, 0xCC, 0xDD, 0xEE];
    let progress = ble::read_fragment(collection, size, fragment, &mut buffer);
    tell(rt, progress.answer);
    let Collection {
        len,
        taken,
        cmd,
        seq,
    } = progress.collection;
    print(
        rt,
        format_args!(", collection {len} {taken} {cmd} {seq}, buffer "),
    );
    hex(rt, &buffer);
    text(rt, b"\n");
}

fn tell(rt: &impl Print, answer: Answer) {
    match answer {
        Answer::Refused(refusal) => print(rt, format_args!("refused {refusal}")),
        Answer::Waiting => text(rt, b"waiting"),
        Answer::Message { cmd, len } => print(rt, format_args!("message {cmd} of {len}")),
    }
}
