// Whether a collection makes sense over Bluetooth.
ghost use Rattle.std.specs.Prelude.{◌≡◌};
ghost use Rattle.ble.specs.Soundness.{is_sound};

use host::Collection;

// No message is begun, or more is declared than was taken, and no more than there is room for; and the number due is one that there is.
pub(crate) fn is_sound(collection: Collection, space: usize) -> bool
    ensures { result ≡ is_sound collection space }
{
    if collection.len == 0 {
        return true;
    }
    if collection.taken >= collection.len {
        return false;
    }
    if collection.len as usize > space {
        return false;
    }
    collection.seq <= LAST_SEQ
}

// Numbers go from 0 to this one, and from 0 again.
pub(crate) const LAST_SEQ: u8 = 127;
