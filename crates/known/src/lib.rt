// The commands that a device knows. OpenSK has no such test: there an unknown command is told so when its message is whole.
#![tactic(auto)]

mod vendor;

ghost use Rattle.std.specs.Prelude.{◌≡◌};
ghost use Rattle.known.specs.Meaning.{is_known};

use packet::CtapHidCommand;
pub use vendor::{Listed, is_allowed, read_list};

// A bit for each of the standard's commands that are requests, in its order: one test for all of them, in place of one each (docs/SPEED.md).
const REQUESTS: u32 = 1 << CtapHidCommand::MSG
    | 1 << CtapHidCommand::CBOR
    | 1 << CtapHidCommand::INIT
    | 1 << CtapHidCommand::PING
    | 1 << CtapHidCommand::CANCEL
    | 1 << CtapHidCommand::WINK
    | 1 << CtapHidCommand::LOCK;

// Whether a command's number is known, by the bits of the list of set-up.
pub fn knows(bits: u64, cmd: u8) -> bool
    ensures { result ≡ is_known bits cmd }
{
    if cmd < 32 {
        return (REQUESTS >> cmd) & 1 == 1;
    }
    is_allowed(bits, cmd)
}
