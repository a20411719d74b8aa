// The vendor's commands that a device knows: a bit for each of their numbers, the lowest for 64.
ghost use Rattle.std.specs.Prelude.{◌≡◌, ◌≤◌};
ghost use Rattle.ctaphid.specs.Choice.{is_in};
ghost use Rattle.known.specs.Vendor.{vendor_of, bit_of, listed_of};

use packet::CtapHidCommand;

// A list's bits, or that it has a number that isn't the vendor's.
#[derive(Clone, Copy)]
pub enum Listed {
    Bits(u64),
    Foreign,
}

pub fn read_list(numbers: &[u8]) -> Listed
    ensures { result ≡ listed_of numbers.now }
{
    let mut bits = 0u64;
    let mut i = 0;
    while i < numbers.len() {
        let number = numbers[i];
        if CtapHidCommand::is_vendor(number) {
            bits = bits | bit_of(number);
            i += 1;
        } else {
            return Listed::Foreign;
        }
    }
    Listed::Bits(bits)
}

fn bit_of(number: u8) -> u64
    requires { (64 ≤ number) × (number ≤ 127) }
    ensures { result ≡ bit_of number }
{
    1u64 << (number - CtapHidCommand::VENDOR_FIRST)
}

// Whether a number is the vendor's and has its bit among these.
pub fn is_allowed(bits: u64, number: u8) -> bool
    ensures { result ≡ is_in number (vendor_of bits) }
{
    if CtapHidCommand::is_vendor(number) {
        return (bits >> (number - CtapHidCommand::VENDOR_FIRST)) & 1 == 1;
    }
    false
}
