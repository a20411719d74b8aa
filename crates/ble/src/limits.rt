// Sizes over Bluetooth. Each function ties a constant to the number of the definition.
ghost use Rattle.std.specs.Prelude.{◌≡◌};
ghost use Rattle.ctaphid.specs.Bluetooth.{smallest_fragment, largest_fragment, longest_message, is_size};

#[derive(Clone, Copy)]
pub struct BleLimits;

impl BleLimits {
    pub const SMALLEST_FRAGMENT: usize = 20;

    pub const LARGEST_FRAGMENT: usize = 512;

    pub const LARGEST_PAYLOAD: usize = 0xFFFF;

    pub fn smallest_fragment() -> usize
        ensures { result ≡ smallest_fragment }
    {
        Self::SMALLEST_FRAGMENT
    }

    pub fn largest_fragment() -> usize
        ensures { result ≡ largest_fragment }
    {
        Self::LARGEST_FRAGMENT
    }

    pub fn largest_payload() -> usize
        ensures { result ≡ longest_message }
    {
        Self::LARGEST_PAYLOAD
    }

    // Whether a fragment may have this size.
    pub fn is_size(size: usize) -> bool
        ensures { result ≡ is_size size }
    {
        if size < Self::SMALLEST_FRAGMENT {
            return false;
        }
        size <= Self::LARGEST_FRAGMENT
    }
}
