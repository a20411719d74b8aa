// How many continuations are still due: as many as hold the bytes that are missing.
ghost use Rattle.std.specs.Prelude.{◌≡◌};
ghost use Rattle.hid.specs.Due.{due_by, Counts};

use crate::MessageAssembler;

pub(crate) fn still_due(a: MessageAssembler) -> u16
    requires { Counts a }
    ensures { result ≡ due_by a }
{
    if a.len == 0 {
        return 0;
    }
    ((a.len - a.taken + 58) / 59) as u16
}
