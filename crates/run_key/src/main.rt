// A key with two interfaces beside the rules of docs/RULES.md: set-up; states that are not sound, each beside its sound neighbour; the order of refusals; and
// conversations over both interfaces, with the rows of crates/ctaphid/specs/KeyRows.antt among them.
#![tactic(auto)]

mod faults;
mod printing;
mod refusals;
mod states;
mod stepping;
mod talks;

use key::{Key, KeyReady};
use report::{hex, print, text};

fn main(rt: HostRuntime) {
    text(
        &rt,
        b"set-up: main's maximum, vendor's, and the list of vendor commands\n",
    );
    set_ups(&rt);
    text(
        &rt,
        b"states: a step on main, one on vendor, and whether main's lock, vendor's, and the wink run\n",
    );
    faults::all(&rt);
    text(&rt, b"refusals\n");
    refusals::all(&rt);
    match Key::new(7609, 64, true, b"\x40") {
        KeyReady::Key(key) => talks::all(&rt, key),
        KeyReady::Refused(_) => text(&rt, b"refused\n"),
    }
    match Key::new(7609, 64, false, b"\x40") {
        KeyReady::Key(key) => talks::plain(&rt, key),
        KeyReady::Refused(_) => text(&rt, b"refused\n"),
    }
}

// 2^32 is 0 in 32 bits.
fn set_ups(rt: &impl Print) {
    set_up(rt, 7609, 7609, b"");
    set_up(rt, 7609, 64, b"\x7f\x40\x7f");
    set_up(rt, 7610, 7609, b"");
    set_up(rt, 7609, 7610, b"");
    set_up(rt, 7610, 7610, b"");
    set_up(rt, 0x1_0000_0000, 64, b"");
    set_up(rt, 64, 0x1_0000_0000, b"");
    set_up(rt, 7609, 7609, b"\x3f");
    set_up(rt, 7609, 7609, b"\x80");
    set_up(rt, 7609, 7609, b"\x40\x3f");
    set_up(rt, 7610, 7609, b"\x3f");
    set_up(rt, 7609, 7610, b"\x3f");
    set_up(rt, 7609, 7610, b"\x80");
}

fn set_up(rt: &impl Print, main: usize, vendor: usize, commands: &[u8]) {
    print(rt, format_args!("{main} {vendor} \""));
    hex(rt, commands);
    text(rt, b"\":");
    match Key::new(main, vendor, true, commands) {
        KeyReady::Key(key) => fresh(rt, key),
        KeyReady::Refused(number) => printing::refused(rt, number),
    }
    text(rt, b"\n");
}

// Each interface has the maximum that was meant for it.
fn fresh(rt: &impl Print, key: Key) {
    print(
        rt,
        format_args!(" fresh, with {} and {},", key.main.hid.max, key.vendor.max),
    );
    printing::running(rt, key, 0);
}
