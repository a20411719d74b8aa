// Sizes and times. Each function ties a constant to the number of the definition.
ghost use Rattle.std.specs.Prelude.{◌≡◌};
ghost use Rattle.ctaphid.specs.Limits.{packet_size, largest, short_reply, timeout, wink_time, last_time};

#[derive(Clone, Copy)]
pub struct Limits;

impl Limits {
    pub const PACKET_SIZE: usize = 64;

    pub const LARGEST_PAYLOAD: usize = 57 + 128 * 59;

    pub const SHORT_REPLY_SIZE: usize = 17;

    pub const TIMEOUT_MS: u64 = 100;

    pub const WINK_TIMEOUT_MS: u64 = 5000;

    pub const LAST_TIME_MS: u64 = 0xFFFF_FFFF_FFFF;

    pub fn packet_size() -> usize
        ensures { result ≡ packet_size }
    {
        Self::PACKET_SIZE
    }

    pub fn largest_payload() -> usize
        ensures { result ≡ largest }
    {
        Self::LARGEST_PAYLOAD
    }

    pub fn short_reply_size() -> usize
        ensures { result ≡ short_reply }
    {
        Self::SHORT_REPLY_SIZE
    }

    pub fn timeout_ms() -> u64
        ensures { result ≡ timeout }
    {
        Self::TIMEOUT_MS
    }

    pub fn wink_timeout_ms() -> u64
        ensures { result ≡ wink_time }
    {
        Self::WINK_TIMEOUT_MS
    }

    pub fn last_time_ms() -> u64
        ensures { result ≡ last_time }
    {
        Self::LAST_TIME_MS
    }
}
