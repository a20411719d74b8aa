// The commands over Bluetooth, as bytes: CTAP 2.1, section 11.4, in its order.
ghost use Rattle.std.specs.Prelude.{◌≡◌};
ghost use Rattle.ctaphid.specs.Bluetooth.{command_byte, is_command};
ghost use Rattle.ble.specs.Numbers.{command_meant};

#[derive(Clone, Copy)]
pub enum BleCommand {
    Ping,
    Keepalive,
    Msg,
    Cancel,
    Error,
}

impl BleCommand {
    pub const PING: u8 = 0x81;

    pub const KEEPALIVE: u8 = 0x82;

    pub const MSG: u8 = 0x83;

    pub const CANCEL: u8 = 0xBE;

    pub const ERROR: u8 = 0xBF;

    pub fn byte(self) -> u8
        ensures { result ≡ command_byte (command_meant self) }
    {
        match self {
            BleCommand::Ping => Self::PING,
            BleCommand::Keepalive => Self::KEEPALIVE,
            BleCommand::Msg => Self::MSG,
            BleCommand::Cancel => Self::CANCEL,
            BleCommand::Error => Self::ERROR,
        }
    }

    // Whether a byte is one of the five.
    pub fn is_command(byte: u8) -> bool
        ensures { result ≡ is_command byte }
    {
        match byte {
            0x81 => true,
            0x82 => true,
            0x83 => true,
            0xBE => true,
            0xBF => true,
            _ => false,
        }
    }
}
