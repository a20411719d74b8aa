// The C boundary of a key with two interfaces, by value: every answer as numbers. The exported entries are thin over these.
#![tactic(auto)]

ghost use Rattle.std.specs.Prelude.{◌≡◌};
ghost use Rattle.key.specs.SetUp.{key_new_of};
ghost use Rattle.key.specs.Stepping.{main_key_of, vendor_key_of};
ghost use Rattle.key.specs.Questions.{main_locked_of, vendor_locked_of, key_winking_of};
ghost use Rattle.flat.specs.Telling.{is_set, running_number, flat, flat_of, main_flat, main_flat_of};
ghost use Rattle.flat_key.specs.Telling.{key_made_of};

use flat::{FlatHid, FlatMain};
use key::{Key, KeyReady};

// ---- set-up: a refused one leaves the key as it came

#[derive(Clone, Copy)]
pub struct MadeKey {
    pub key: Key,
    pub refusal: u8,
}

pub fn key_new(old: Key, main: usize, vendor: usize, u2f: u8, commands: &[u8]) -> MadeKey
    ensures { result ≡ key_made_of old (key_new_of main vendor (is_set u2f) commands.now) }
{
    match Key::new(main, vendor, u2f != 0, commands) {
        KeyReady::Key(key) => MadeKey { key, refusal: 0 },
        KeyReady::Refused(number) => MadeKey {
            key: old,
            refusal: number,
        },
    }
}

// ---- steps: the interface as the step leaves it

pub fn key_main_step(
    key: Key,
    time: u64,
    packet: &[u8],
    message: &mut [u8],
    reply: &mut [u8],
) -> FlatMain
    ensures { main_flat result message.new reply.new ≡ main_flat_of (main_key_of key time packet.now message.old reply.old) }
{
    let stepped = key.step_main(time, packet, message, reply);
    let answer = stepped.answer;
    let outcome = flat::outcome_of(answer);
    let next = stepped.hid;
    FlatMain { hid: next, outcome }
}

pub fn key_vendor_step(
    key: Key,
    time: u64,
    packet: &[u8],
    message: &mut [u8],
    reply: &mut [u8],
) -> FlatHid
    ensures { flat result message.new reply.new ≡ flat_of (vendor_key_of key time packet.now message.old reply.old) }
{
    let stepped = key.step_vendor(time, packet, message, reply);
    let answer = stepped.answer;
    let outcome = flat::outcome_of(answer);
    let next = stepped.hid;
    FlatHid { hid: next, outcome }
}

// ---- questions: 0 for no, 1 for yes, else the refusal's number, 3 or 4

pub fn key_main_is_locked(key: Key, time: u64) -> u8
    ensures { result ≡ running_number (main_locked_of key time) }
{
    flat::running_number(key.is_main_locked_at(time))
}

pub fn key_vendor_is_locked(key: Key, time: u64) -> u8
    ensures { result ≡ running_number (vendor_locked_of key time) }
{
    flat::running_number(key.is_vendor_locked_at(time))
}

pub fn key_is_winking(key: Key, time: u64) -> u8
    ensures { result ≡ running_number (key_winking_of key time) }
{
    flat::running_number(key.is_winking_at(time))
}
