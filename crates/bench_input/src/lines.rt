// A line of the bench's input. Each step has its counterpart in the definition.
ghost use Rattle.std.specs.Prelude.{◌≡◌, true, ◌≤◌, length};
ghost use Rattle.bench_input.specs.Lines.{Decimal, number_of, digits_in, is_flag, is_formed, input_of, read, read_to, read_line_of};

use crate::Line;
use crate::hex::{decode, is_hex};
use packet::{Limits, Refusal};

// Reads a line, without its newline: None where it has no reading. The packet gets the line's bytes, and zeros up to 64; a line that has no reading leaves it as
// it was. A packet slice that isn't 64 bytes is refused with 1.
pub fn read_line(line: &[u8], packet: &mut [u8]) -> Result<Option<Line>, Refusal>
    ensures { read result packet.new ≡ read_line_of line.now packet.old }
{
    if packet.len() != Limits::PACKET_SIZE {
        return Err(Refusal::PacketSize);
    }
    let digits = digits_in(line);
    if is_formed(line, digits) {
        return Ok(Some(take_input(line, digits, packet)));
    }
    Ok(None)
}

// How many digits a line begins with.
fn digits_in(line: &[u8]) -> usize
    ensures { result ≡ digits_in line.now }
{
    line.iter().take_while(|c| c.is_ascii_digit()).count()
}

// Whether a line with so many digits in front has the form of an input.
fn is_formed(line: &[u8], digits: usize) -> bool
    ensures { result ≡ is_formed line.now digits }
{
    if digits < 1 {
        return false;
    }
    if digits > MOST_DIGITS {
        return false;
    }
    let flag = digits + 1;
    let gap = digits + 2;
    let hex = digits + 3;
    if line.len() < hex {
        return false;
    }
    if line[digits] != b' ' {
        return false;
    }
    if is_flag(line[flag]) {
        if line[gap] != b' ' {
            return false;
        }
        return is_hex(&line[hex..]);
    }
    false
}

const MOST_DIGITS: usize = 15;

fn is_flag(c: u8) -> bool
    ensures { result ≡ is_flag c }
{
    c == b'0' || c == b'1'
}

// The input of a line that has the form. Its bytes go into the packet.
fn take_input(line: &[u8], digits: usize, packet: &mut [u8]) -> Line
    requires { (digits ≡ digits_in line.now) × (is_formed line.now digits ≡ true) × (length packet.old ≡ 64) }
    ensures { read (Ok (Some result)) packet.new ≡ read_to (input_of line.now digits) }
{
    let flag = digits + 1;
    let hex = digits + 3;
    decode(&line[hex..], packet);
    Line {
        time: number(&line[..digits]),
        disabled: line[flag] == b'1',
    }
}

// The number that up to 15 digits say.
fn number(digits: &[u8]) -> u64
    requires { (length digits.now ≤ 15) × Decimal digits.now }
    ensures { result ≡ number_of digits.now }
{
    let mut value: u64 = 0;
    for digit in digits {
        value = 10 * value + u64::from(*digit - b'0');
    }
    value
}
