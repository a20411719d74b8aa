// A message that is being sent: it stands over the payload and remembers its place.
ghost use Rattle.std.specs.Prelude.{◌≡◌};
ghost use Rattle.send.specs.Sender.{admitted, started_of, has_more, sent, sent_of, Sends};

use crate::{Written, packets_in, write_packet};
use packet::{Limits, Refusal};

#[derive(Clone, Copy)]
pub struct Sender<'a> {
    payload: &'a [u8],
    cid: u32,
    cmd: u8,
    next: usize,
}

// Whether a message can be sent.
#[derive(Clone, Copy)]
pub enum Admission {
    Admitted,
    Refused(u8),
}

// A sender, and whether its message can be sent. One that can't has no packet.
#[derive(Clone, Copy)]
pub struct Started<'a> {
    pub sender: Sender<'a>,
    pub answer: Admission,
}

// What a sender answers.
#[derive(Clone, Copy)]
pub enum Next {
    Packet,
    NoneLeft,
    Refused(u8),
}

impl<'a> Sender<'a> {
    // Refusals in the order 12, 7.
    pub fn new(payload: &'a [u8], cid: u32, cmd: u8) -> Started<'a>
        ensures { result ≡ started_of payload.entry cid cmd }
    {
        let answer = admits(payload, cmd);
        Started {
            sender: Sender {
                payload,
                cid,
                cmd,
                next: 0,
            },
            answer,
        }
    }

    // Writes the next packet and moves on. After the last there is none left, and nothing is written.
    pub fn next(&mut self, packet: &mut [u8]) -> Next
        ensures { Sends self.old packet.old result self.new packet.new }
    {
        let m = send_at(self.payload, self.cid, self.cmd, self.next, packet);
        self.next = m.next;
        m.answer
    }

    // Whether a packet is left.
    pub fn has_data(&self) -> bool
        ensures { result ≡ has_more self.now.cmd self.now.payload.now self.now.next }
    {
        has_more(self.payload, self.cmd, self.next)
    }
}

// The answer, and the place of the next packet.
#[derive(Clone, Copy)]
pub(crate) struct Moved {
    pub answer: Next,
    pub next: usize,
}

pub(crate) fn admits(payload: &[u8], cmd: u8) -> Admission
    ensures { result ≡ admitted cmd payload.now }
{
    if cmd > 127 {
        return Admission::Refused(Refusal::COMMAND);
    }
    if payload.len() > Limits::LARGEST_PAYLOAD {
        return Admission::Refused(Refusal::LONG_PAYLOAD);
    }
    Admission::Admitted
}

// The work of Sender::next, over a plain slice and numbers.
pub(crate) fn send_at(payload: &[u8], cid: u32, cmd: u8, index: usize, packet: &mut [u8]) -> Moved
    ensures { sent result.answer result.next packet.new ≡ sent_of cid cmd payload.now index packet.old }
{
    match write_packet(cid, cmd, payload, index, packet) {
        Written::Packet => Moved {
            answer: Next::Packet,
            next: index + 1,
        },
        Written::Refused(number) => {
            if number == 1 {
                Moved {
                    answer: Next::Refused(Refusal::PACKET_SIZE),
                    next: index,
                }
            } else {
                Moved {
                    answer: Next::NoneLeft,
                    next: index,
                }
            }
        }
    }
}

// The work of Sender::has_data.
pub(crate) fn has_more(payload: &[u8], cmd: u8, index: usize) -> bool
    ensures { result ≡ has_more cmd payload.now index }
{
    if cmd > 127 {
        return false;
    }
    if payload.len() > Limits::LARGEST_PAYLOAD {
        return false;
    }
    index < packets_in(payload.len())
}
