// Whether a collection makes sense.
ghost use Rattle.std.specs.Prelude.{◌≡◌};
ghost use Rattle.host.specs.Meaning.{is_sound};

use crate::Collection;
use packet::Limits;

// No reply is begun, or its lengths and number stand: in the device's place of the maximum are the buffer's length and 7,609.
pub(crate) fn is_sound(collection: Collection, space: usize) -> bool
    ensures { result ≡ is_sound collection space }
{
    let len = collection.len as usize;
    if len == 0 {
        return true;
    }
    if len > Limits::LARGEST_PAYLOAD {
        return false;
    }
    collect::stands(space, len, collection.taken as usize, collection.seq as u16)
}
