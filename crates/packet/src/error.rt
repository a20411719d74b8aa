// The errors, and the byte that tells each.
ghost use Rattle.std.specs.Prelude.{◌≡◌};
ghost use Rattle.ctaphid.specs.Errors.{code};
ghost use Rattle.packet.specs.Numbers.{error_meant};

#[derive(Clone, Copy)]
pub enum CtapHidError {
    InvalidCmd,
    InvalidPar,
    InvalidLen,
    InvalidSeq,
    MsgTimeout,
    ChannelBusy,
    InvalidChannel,
}

impl CtapHidError {
    pub const INVALID_CMD: u8 = 0x01;

    pub const INVALID_PAR: u8 = 0x02;

    pub const INVALID_LEN: u8 = 0x03;

    pub const INVALID_SEQ: u8 = 0x04;

    pub const MSG_TIMEOUT: u8 = 0x05;

    pub const CHANNEL_BUSY: u8 = 0x06;

    pub const INVALID_CHANNEL: u8 = 0x0B;

    pub fn code(self) -> u8
        ensures { result ≡ code (error_meant self) }
    {
        match self {
            CtapHidError::InvalidCmd => Self::INVALID_CMD,
            CtapHidError::InvalidPar => Self::INVALID_PAR,
            CtapHidError::InvalidLen => Self::INVALID_LEN,
            CtapHidError::InvalidSeq => Self::INVALID_SEQ,
            CtapHidError::MsgTimeout => Self::MSG_TIMEOUT,
            CtapHidError::ChannelBusy => Self::CHANNEL_BUSY,
            CtapHidError::InvalidChannel => Self::INVALID_CHANNEL,
        }
    }
}
