// Bytes in lower-case hex, read.
ghost use Rattle.std.specs.Prelude.{◌≡◌, true, ◌≤◌, ◌<◌, length, get_or};
ghost use Rattle.ctaphid.specs.Messages.{padded};
ghost use Rattle.bench_input.specs.Hex.{is_hex_digit, hex_value, all_hex, bytes_of, is_hex};

// Whether these are 1 to 64 bytes in lower-case hex.
pub(crate) fn is_hex(hex: &[u8]) -> bool
    ensures { result ≡ is_hex hex.now }
{
    if hex.len() < 2 || hex.len() > MOST_HEX || hex.len() % 2 != 0 {
        return false;
    }
    all_hex(hex)
}

const MOST_HEX: usize = 128;

fn all_hex(hex: &[u8]) -> bool
    ensures { result ≡ all_hex hex.now }
{
    hex.iter().all(|c| is_hex_digit(*c))
}

// The bytes that the hex says, and zeros after them.
pub(crate) fn decode(hex: &[u8], packet: &mut [u8])
    requires { (is_hex hex.now ≡ true) × (length packet.old ≡ 64) }
    ensures { packet.new ≡ padded 64 (bytes_of hex.now) }
{
    for (i, byte) in packet.iter_mut().enumerate() {
        *byte = byte_at(hex, i);
    }
}

// The byte that the hex says at an index, and 0 past the last.
fn byte_at(hex: &[u8], index: usize) -> u8
    requires { (all_hex hex.now ≡ true) × (index ≤ 64) }
    ensures { result ≡ get_or (bytes_of hex.now) index 0 }
{
    let high = 2 * index;
    let low = high + 1;
    if low >= hex.len() {
        return 0;
    }
    16 * hex_value(hex[high]) + hex_value(hex[low])
}

// No capital letter is one.
fn is_hex_digit(c: u8) -> bool
    ensures { result ≡ is_hex_digit c }
{
    matches!(c, b'0'..=b'9' | b'a'..=b'f')
}

fn hex_value(c: u8) -> u8
    requires { is_hex_digit c ≡ true }
    ensures { (result ≡ hex_value c) × (result < 16) }
{
    if c.is_ascii_digit() {
        c - b'0'
    } else {
        c - b'a' + 10
    }
}
