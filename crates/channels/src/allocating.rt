// INIT.
ghost use Rattle.std.specs.Prelude.{◌≡◌, [], ◌∷◌, ◌++◌, ◌≤◌, length};
ghost use Rattle.ctaphid.specs.Packets.{four};
ghost use Rattle.ctaphid.specs.Transport.{next_channel, on_init};
ghost use Rattle.collect.specs.Adding.{front};
ghost use Rattle.channels.specs.Allocating.{having, allocating, allocated_by, init_of};

use crate::{Allocated, BROADCAST, MAX_CID};
use answers::Answer;
use packet::{Capability, CtapHidCommand, CtapHidError, Limits, Refusal};

// What a reply to INIT says of the device, after the channel.
const PROTOCOL_VERSION: u8 = 2;

const DEVICE_VERSION_MAJOR: u8 = 1;

const DEVICE_VERSION_MINOR: u8 = 0;

const DEVICE_VERSION_BUILD: u8 = 0;

// An INIT with this payload. Refusals in the order 2, 3.
pub fn init(allocated: u32, u2f: bool, cid: u32, nonce: &[u8], reply: &mut [u8]) -> Allocated
    ensures { allocating result reply.new ≡ init_of allocated u2f cid nonce.now reply.old }
{
    if reply.len() < Limits::SHORT_REPLY_SIZE {
        return Allocated {
            allocated,
            answer: Answer::Refused(Refusal::SHORT_BUFFER),
        };
    }
    if allocated > MAX_CID {
        return Allocated {
            allocated,
            answer: Answer::Refused(Refusal::UNSOUND),
        };
    }
    answer_init(allocated, u2f, cid, nonce, reply)
}

fn answer_init(allocated: u32, u2f: bool, cid: u32, nonce: &[u8], reply: &mut [u8]) -> Allocated
    requires { (allocated ≤ 0xffff_fffe) × (17 ≤ length reply.old) }
    ensures { allocating result reply.new ≡ allocated_by (on_init (having allocated u2f) cid nonce.now) reply.old }
{
    if nonce.len() != 8 {
        let answer = answers::error_message(cid, CtapHidError::INVALID_LEN, reply);
        return Allocated { allocated, answer };
    }
    let capabilities = Capability::reported(u2f);
    if cid == BROADCAST {
        let channel = next_channel(allocated);
        put_init(nonce, channel, capabilities, reply);
        return init_message(channel, cid);
    }
    put_init(nonce, cid, capabilities, reply);
    init_message(allocated, cid)
}

fn init_message(allocated: u32, cid: u32) -> Allocated
    ensures { result ≡ record { allocated = allocated; answer = Answer.Reply cid CtapHidCommand.Init 17 } }
{
    Allocated {
        allocated,
        answer: Answer::Reply {
            cid,
            cmd: CtapHidCommand::Init,
            len: 17,
        },
    }
}

fn next_channel(allocated: u32) -> u32
    requires { allocated ≤ 0xffff_fffe }
    ensures { result ≡ next_channel allocated }
{
    if allocated == MAX_CID {
        return 1;
    }
    allocated + 1
}

fn put_init(nonce: &[u8], cid: u32, capabilities: u8, reply: &mut [u8])
    requires { (length nonce.now ≡ 8) × (17 ≤ length reply.old) }
    ensures { reply.new ≡ front (nonce.now ++ (four cid ++ (2 ∷ 1 ∷ 0 ∷ 0 ∷ capabilities ∷ []))) reply.old }
{
    let rest = [
        (cid / 0x100_0000) as u8,
        (cid / 0x1_0000 % 0x100) as u8,
        (cid / 0x100 % 0x100) as u8,
        (cid % 0x100) as u8,
        PROTOCOL_VERSION,
        DEVICE_VERSION_MAJOR,
        DEVICE_VERSION_MINOR,
        DEVICE_VERSION_BUILD,
        capabilities,
    ];
    reply[..8].copy_from_slice(nonce);
    reply[8..17].copy_from_slice(&rest);
}
