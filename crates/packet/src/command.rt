// The commands, and their numbers both ways, in the standard's order: section 11.2.9.1, mandatory; 11.2.9.2, optional; 11.2.9.3, the vendor's own.
ghost use Rattle.std.specs.Prelude.{◌≡◌};
ghost use Rattle.ctaphid.specs.Commands.{command_of, number, is_vendor};
ghost use Rattle.packet.specs.Numbers.{command_meant};

#[derive(Clone, Copy)]
pub enum CtapHidCommand {
    Msg,
    Cbor,
    Init,
    Ping,
    Cancel,
    Error,
    Keepalive,
    Wink,
    Lock,
    // One of the vendor's, with its number.
    Vendor(u8),
}

impl CtapHidCommand {
    pub const MSG: u8 = 0x03;

    pub const CBOR: u8 = 0x10;

    pub const INIT: u8 = 0x06;

    pub const PING: u8 = 0x01;

    pub const CANCEL: u8 = 0x11;

    pub const ERROR: u8 = 0x3F;

    pub const KEEPALIVE: u8 = 0x3B;

    pub const WINK: u8 = 0x08;

    pub const LOCK: u8 = 0x04;

    pub const VENDOR_FIRST: u8 = 0x40;

    pub const VENDOR_LAST: u8 = 0x7F;

    pub fn from_u8(cmd: u8) -> Self
        ensures { command_meant result ≡ command_of cmd }
    {
        match cmd {
            // Section 11.2.9.1.
            0x03 => CtapHidCommand::Msg,
            0x10 => CtapHidCommand::Cbor,
            0x06 => CtapHidCommand::Init,
            0x01 => CtapHidCommand::Ping,
            0x11 => CtapHidCommand::Cancel,
            0x3F => CtapHidCommand::Error,
            0x3B => CtapHidCommand::Keepalive,
            // Section 11.2.9.2.
            0x08 => CtapHidCommand::Wink,
            0x04 => CtapHidCommand::Lock,
            // Section 11.2.9.3.
            0x40..=0x7F => CtapHidCommand::Vendor(cmd),
            // The rest reads as Error, as in the Rust (docs/DIFFERENCES.md, 1).
            _ => CtapHidCommand::Error,
        }
    }

    // Whether the number is one of the vendor's.
    pub fn is_vendor(cmd: u8) -> bool
        ensures { result ≡ is_vendor cmd }
    {
        if cmd < Self::VENDOR_FIRST {
            return false;
        }
        cmd <= Self::VENDOR_LAST
    }

    pub fn number(self) -> u8
        ensures { result ≡ number (command_meant self) }
    {
        match self {
            CtapHidCommand::Msg => Self::MSG,
            CtapHidCommand::Cbor => Self::CBOR,
            CtapHidCommand::Init => Self::INIT,
            CtapHidCommand::Ping => Self::PING,
            CtapHidCommand::Cancel => Self::CANCEL,
            CtapHidCommand::Error => Self::ERROR,
            CtapHidCommand::Keepalive => Self::KEEPALIVE,
            CtapHidCommand::Wink => Self::WINK,
            CtapHidCommand::Lock => Self::LOCK,
            CtapHidCommand::Vendor(number) => number,
        }
    }
}
