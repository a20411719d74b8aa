// The refusals, and the number of each: a call that is wrong gets it, and alters nothing. 8 is not used again.
ghost use Rattle.std.specs.Prelude.{◌≡◌};
ghost use Rattle.ctaphid.specs.Refusals.{refusal_number};
ghost use Rattle.packet.specs.Numbers.{refusal_meant};

#[derive(Clone, Copy)]
pub enum Refusal {
    PacketSize,
    ShortBuffer,
    Unsound,
    Time,
    Maximum,
    Index,
    LongPayload,
    Sequence,
    LongReply,
    NotInit,
    Command,
    Vendor,
    FragmentSize,
    FragmentLength,
    FragmentNumber,
    LongMessage,
    Excess,
}

impl Refusal {
    pub const PACKET_SIZE: u8 = 1;

    pub const SHORT_BUFFER: u8 = 2;

    pub const UNSOUND: u8 = 3;

    pub const TIME: u8 = 4;

    pub const MAXIMUM: u8 = 5;

    pub const INDEX: u8 = 6;

    pub const LONG_PAYLOAD: u8 = 7;

    pub const SEQUENCE: u8 = 9;

    pub const LONG_REPLY: u8 = 10;

    pub const NOT_INIT: u8 = 11;

    pub const COMMAND: u8 = 12;

    pub const VENDOR: u8 = 13;

    pub const FRAGMENT_SIZE: u8 = 14;

    pub const FRAGMENT_LENGTH: u8 = 15;

    pub const FRAGMENT_NUMBER: u8 = 16;

    pub const LONG_MESSAGE: u8 = 17;

    pub const EXCESS: u8 = 18;

    pub fn number(self) -> u8
        ensures { result ≡ refusal_number (refusal_meant self) }
    {
        match self {
            Refusal::PacketSize => Self::PACKET_SIZE,
            Refusal::ShortBuffer => Self::SHORT_BUFFER,
            Refusal::Unsound => Self::UNSOUND,
            Refusal::Time => Self::TIME,
            Refusal::Maximum => Self::MAXIMUM,
            Refusal::Index => Self::INDEX,
            Refusal::LongPayload => Self::LONG_PAYLOAD,
            Refusal::Sequence => Self::SEQUENCE,
            Refusal::LongReply => Self::LONG_REPLY,
            Refusal::NotInit => Self::NOT_INIT,
            Refusal::Command => Self::COMMAND,
            Refusal::Vendor => Self::VENDOR,
            Refusal::FragmentSize => Self::FRAGMENT_SIZE,
            Refusal::FragmentLength => Self::FRAGMENT_LENGTH,
            Refusal::FragmentNumber => Self::FRAGMENT_NUMBER,
            Refusal::LongMessage => Self::LONG_MESSAGE,
            Refusal::Excess => Self::EXCESS,
        }
    }
}
