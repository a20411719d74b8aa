// The entries for a key with two interfaces, for C and Rust, which snjofrask_key_c exports. Each is thin over the same by value; flags are numbers, of which 0 is
// not set. Packets, waits and the host's end are the other library's.
#![tactic(auto)]

ghost use Rattle.std.specs.Prelude.{◌≡◌};
ghost use Rattle.key.specs.SetUp.{key_new_of};
ghost use Rattle.key.specs.Stepping.{main_key_of, vendor_key_of, main_laid, vendor_laid};
ghost use Rattle.key.specs.Questions.{main_locked_of, vendor_locked_of, key_winking_of};
ghost use Rattle.flat.specs.Telling.{is_set, running_number};
ghost use Rattle.flat_key.specs.Telling.{key_made_of, key_flat, key_flat_of};

use flat::Outcome;
use key::Key;

// A fresh key, with the largest message that each interface takes and the numbers of the vendor commands that both know. 0, or refusal 5 or 13, which leaves key as
// it came.
pub fn snjofrask_key_new(key: &mut Key, main: usize, vendor: usize, u2f: u8, commands: &[u8]) -> u8
    ensures { record { key = key.new; refusal = result } ≡ key_made_of key.old (key_new_of main vendor (is_set u2f) commands.now) }
{
    let made = flat_key::key_new(*key, main, vendor, u2f, commands);
    *key = made.key;
    made.refusal
}

// A packet on main, at a time in milliseconds. A refused step leaves key and both buffers as they came.
pub fn snjofrask_key_main_step(
    key: &mut Key,
    time: u64,
    packet: &[u8],
    message: &mut [u8],
    reply: &mut [u8],
) -> Outcome
    ensures { key_flat key.new result message.new reply.new ≡ key_flat_of (main_laid key.old (main_key_of key.old time packet.now message.old reply.old)) }
{
    let stepped = flat_key::key_main_step(*key, time, packet, message, reply);
    key.main = stepped.hid;
    stepped.outcome
}

// A packet on vendor.
pub fn snjofrask_key_vendor_step(
    key: &mut Key,
    time: u64,
    packet: &[u8],
    message: &mut [u8],
    reply: &mut [u8],
) -> Outcome
    ensures { key_flat key.new result message.new reply.new ≡ key_flat_of (vendor_laid key.old (vendor_key_of key.old time packet.now message.old reply.old)) }
{
    let stepped = flat_key::key_vendor_step(*key, time, packet, message, reply);
    key.vendor.assembler = stepped.hid.assembler;
    key.vendor.lock = stepped.hid.lock;
    key.vendor.allocated = stepped.hid.allocated;
    key.vendor.locked = stepped.hid.locked;
    key.vendor.still_due = stepped.hid.still_due;
    key.main.hid.last = stepped.hid.last;
    stepped.outcome
}

// Whether main's lock, vendor's, or the wink runs: 0 no, 1 yes, or refusal 3 or 4.
pub fn snjofrask_key_main_is_locked(key: &Key, time: u64) -> u8
    ensures { result ≡ running_number (main_locked_of key.now time) }
{
    flat_key::key_main_is_locked(*key, time)
}

pub fn snjofrask_key_vendor_is_locked(key: &Key, time: u64) -> u8
    ensures { result ≡ running_number (vendor_locked_of key.now time) }
{
    flat_key::key_vendor_is_locked(*key, time)
}

pub fn snjofrask_key_is_winking(key: &Key, time: u64) -> u8
    ensures { result ≡ running_number (key_winking_of key.now time) }
{
    flat_key::key_is_winking(*key, time)
}
