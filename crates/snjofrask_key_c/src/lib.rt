// The static library of a key with two interfaces: what C and Rust link, each entry of the library snjofrask_key under its name, with its clauses.
#![tactic(auto)]

ghost use Rattle.std.specs.Prelude.{◌≡◌};
ghost use Rattle.key.specs.SetUp.{key_new_of};
ghost use Rattle.key.specs.Stepping.{main_key_of, vendor_key_of, main_laid, vendor_laid};
ghost use Rattle.key.specs.Questions.{main_locked_of, vendor_locked_of, key_winking_of};
ghost use Rattle.flat.specs.Telling.{is_set, running_number};
ghost use Rattle.flat_key.specs.Telling.{key_made_of, key_flat, key_flat_of};

use flat::Outcome;
use key::Key;

#[unsafe(no_mangle)]
pub extern "C" fn snjofrask_key_new(
    key: &mut Key,
    main: usize,
    vendor: usize,
    u2f: u8,
    commands: &[u8],
) -> u8
    ensures { record { key = key.new; refusal = result } ≡ key_made_of key.old (key_new_of main vendor (is_set u2f) commands.now) }
{
    snjofrask_key::snjofrask_key_new(key, main, vendor, u2f, commands)
}

#[unsafe(no_mangle)]
pub extern "C" fn snjofrask_key_main_step(
    key: &mut Key,
    time: u64,
    packet: &[u8],
    message: &mut [u8],
    reply: &mut [u8],
) -> Outcome
    ensures { key_flat key.new result message.new reply.new ≡ key_flat_of (main_laid key.old (main_key_of key.old time packet.now message.old reply.old)) }
{
    snjofrask_key::snjofrask_key_main_step(key, time, packet, message, reply)
}

#[unsafe(no_mangle)]
pub extern "C" fn snjofrask_key_vendor_step(
    key: &mut Key,
    time: u64,
    packet: &[u8],
    message: &mut [u8],
    reply: &mut [u8],
) -> Outcome
    ensures { key_flat key.new result message.new reply.new ≡ key_flat_of (vendor_laid key.old (vendor_key_of key.old time packet.now message.old reply.old)) }
{
    snjofrask_key::snjofrask_key_vendor_step(key, time, packet, message, reply)
}

#[unsafe(no_mangle)]
pub extern "C" fn snjofrask_key_main_is_locked(key: &Key, time: u64) -> u8
    ensures { result ≡ running_number (main_locked_of key.now time) }
{
    snjofrask_key::snjofrask_key_main_is_locked(key, time)
}

#[unsafe(no_mangle)]
pub extern "C" fn snjofrask_key_vendor_is_locked(key: &Key, time: u64) -> u8
    ensures { result ≡ running_number (vendor_locked_of key.now time) }
{
    snjofrask_key::snjofrask_key_vendor_is_locked(key, time)
}

#[unsafe(no_mangle)]
pub extern "C" fn snjofrask_key_is_winking(key: &Key, time: u64) -> u8
    ensures { result ≡ running_number (key_winking_of key.now time) }
{
    snjofrask_key::snjofrask_key_is_winking(key, time)
}
