// What more than one part prints: an answer in short, and the three questions.
use hid::{Answer, Running};
use key::Key;
use report::{print, text};

// As in run_states, with refused and say: one function for both would be public, and no contract can speak of what it writes.
pub(crate) fn show(rt: &impl Print, answer: Answer) {
    if let Answer::Refused(number) = answer {
        refused(rt, number);
    } else {
        text(rt, b" taken");
    }
}

pub(crate) fn refused(rt: &impl Print, number: u8) {
    print(rt, format_args!(" refused {number}"));
}

// Main's lock, vendor's, and the wink.
pub(crate) fn running(rt: &impl Print, key: Key, time: u64) {
    say(rt, key.is_main_locked_at(time));
    say(rt, key.is_vendor_locked_at(time));
    say(rt, key.is_winking_at(time));
}

fn say(rt: &impl Print, running: Running) {
    match running {
        Running::Yes => text(rt, b" yes"),
        Running::No => text(rt, b" no"),
        Running::Refused(number) => refused(rt, number),
    }
}
