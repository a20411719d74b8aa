// The capabilities that a reply to INIT reports.
ghost use Rattle.std.specs.Prelude.{◌≡◌};
ghost use Rattle.ctaphid.specs.Capabilities.{bit, capabilities};
ghost use Rattle.packet.specs.Numbers.{capability_meant};

#[derive(Clone, Copy)]
pub enum Capability {
    Wink,
    Cbor,
    Nmsg,
}

impl Capability {
    pub const WINK: u8 = 0x01;

    pub const CBOR: u8 = 0x04;

    pub const NMSG: u8 = 0x08;

    pub fn bit(self) -> u8
        ensures { result ≡ bit (capability_meant self) }
    {
        match self {
            Capability::Wink => Self::WINK,
            Capability::Cbor => Self::CBOR,
            Capability::Nmsg => Self::NMSG,
        }
    }

    // What a key reports, with U2F or without.
    pub fn reported(u2f: bool) -> u8
        ensures { result ≡ capabilities u2f }
    {
        if u2f {
            Self::WINK | Self::CBOR
        } else {
            Self::WINK | Self::CBOR | Self::NMSG
        }
    }
}
