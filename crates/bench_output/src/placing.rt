// Texts put into a buffer: each function puts one at a place, and returns the place after it.
ghost use Rattle.std.specs.Prelude.{◌≡◌, [], ◌∷◌, ◌+◌, ◌*◌, ◌<◌, ◌≤◌, length};
ghost use Rattle.bench_input.specs.Hex.{hex_digit, hex_of};
ghost use Rattle.bench_output.specs.Placing.{laid, Put, decimal};

pub(crate) fn put(text: &[u8], out: &mut [u8], at: usize) -> usize
    requires { at + length text.now ≤ length out.old }
    ensures { Put at text.now out.old result out.new }
{
    out[at..at + text.len()].copy_from_slice(text);
    at + text.len()
}

pub(crate) fn put_hex(part: &[u8], out: &mut [u8], at: usize) -> usize
    requires { at + 2 * length part.now ≤ length out.old }
    ensures { Put at (hex_of part.now) out.old result out.new }
{
    let mut place = at;
    for byte in part {
        put_byte(*byte, out, place);
        place += 2;
    }
    place
}

fn put_byte(byte: u8, out: &mut [u8], at: usize)
    requires { at + 2 ≤ length out.old }
    ensures { out.new ≡ laid at (hex_of (byte ∷ [])) out.old }
{
    let high = digit(byte / 16);
    let low = digit(byte % 16);
    out[at] = high;
    out[at + 1] = low;
}

fn digit(d: u8) -> u8
    requires { d < 16 }
    ensures { result ≡ hex_digit d }
{
    if d < 10 {
        return b'0' + d;
    }
    b'a' + (d - 10)
}

// By hand: what Display writes no contract says, and the text of a number of any size would have no bound, as NoneLonger needs one.
pub(crate) fn put_decimal(number: u8, out: &mut [u8], at: usize) -> usize
    requires { at + 3 ≤ length out.old }
    ensures { Put at (decimal 3 number) out.old result out.new }
{
    if number < 10 {
        out[at] = b'0' + number;
        return at + 1;
    }
    if number < 100 {
        out[at] = b'0' + number / 10;
        out[at + 1] = b'0' + number % 10;
        return at + 2;
    }
    out[at] = b'0' + number / 100;
    out[at + 1] = b'0' + number / 10 % 10;
    out[at + 2] = b'0' + number % 10;
    at + 3
}
