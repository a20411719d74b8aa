// Input cut into lines, piece by piece.
ghost use Rattle.std.specs.Prelude.{◌≡◌, ◌+◌, ◌≤◌, ◌==◌, length, drop};
ghost use Rattle.std.specs.List.{position_or_len};
ghost use Rattle.bench_input.specs.Pieces.{newline, keeping, keep_of, cutting, cut_of};

use crate::Cut;
use collect::Added;
use packet::Refusal;

const NEWLINE: u8 = 10;

// Adds to a line what a piece of input has of it from a place on. Places that are not in the buffer, or in the piece, are refused with 3.
pub fn cut_line(line: &mut [u8], kept: usize, input: &[u8], from: usize) -> Result<Cut, Refusal>
    ensures { cutting result line.new ≡ cut_of line.old kept input.now from }
{
    if kept > line.len() {
        return Err(Refusal::Unsound);
    }
    if from > input.len() {
        return Err(Refusal::Unsound);
    }
    let end = line_end(input, from);
    let now_kept = keep(line, kept, &input[from..end]);
    if end < input.len() {
        return Ok(Cut::Whole {
            kept: now_kept,
            next: end + 1,
        });
    }
    Ok(Cut::Part(now_kept))
}

// Where the line that begins at a place ends: at its newline, or with the piece.
fn line_end(input: &[u8], from: usize) -> usize
    requires { from ≤ length input.now }
    ensures value { result ≡ from + position_or_len (λ c. c == newline) (drop from input.now) }
    ensures within { result ≤ length input.now }
{
    match input[from..].iter().position(|c| *c == NEWLINE) {
        Some(n) => from + n,
        None => input.len(),
    }
}

// A line that is longer than the buffer loses its end, and no such line has a reading.
fn keep(line: &mut [u8], kept: usize, part: &[u8]) -> usize
    requires { kept ≤ length line.old }
    ensures { keeping result line.new ≡ keep_of line.old kept part.now }
{
    let room = line.len();
    match collect::add_data(line, kept, room, part) {
        Added::Waiting(n) => n,
        Added::Whole => room,
        // never: kept is at most room
        Added::Refused(_) => kept,
    }
}
