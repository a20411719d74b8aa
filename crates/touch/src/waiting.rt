// The wait around its steps, as in check_user_presence: begun, asked whether it is over, and stepped.
ghost use Rattle.std.specs.Prelude.{◌≡◌};
ghost use Rattle.touch.specs.Waiting.{begin_of, elapsed_of, at, is_cut, refused_by, step_of};

use crate::responding::{ended, respond};
use crate::{Begun, Elapsed, Ending, RecvStatus, Responded, Response, UserPresence, Wait};
use packet::{Limits, Refusal};

impl Wait {
    // A limit of 0 is a wait that is over at once. A time above 2^48 - 1 is refused with 4.
    pub fn begin(interface: u32, cid: u32, time: u64, limit: u32) -> Begun
        ensures { result ≡ begin_of interface cid time limit }
    {
        if time > Limits::LAST_TIME_MS {
            return Begun::Refused(Refusal::TIME);
        }
        Begun::Wait(Wait {
            deadline: time + limit as u64,
            last: time,
            interface,
            cid,
        })
    }

    // Asked before the caller takes a packet: one that arrives later is the transport's. Refusal 4.
    pub fn is_elapsed_at(self, time: u64) -> Elapsed
        ensures { result ≡ elapsed_of self time }
    {
        if time > Limits::LAST_TIME_MS {
            return Elapsed::Refused(Refusal::TIME);
        }
        if time < self.last {
            return Elapsed::Refused(Refusal::TIME);
        }
        if time < self.deadline {
            return Elapsed::No;
        }
        Elapsed::Yes
    }

    // The question over a lent wait.
    pub fn is_elapsed(&self, time: u64) -> Elapsed
        ensures { result ≡ elapsed_of self.now time }
    {
        self.is_elapsed_at(time)
    }

    // A step that began at a time. packet is looked at only where one arrived. Refusals in the order 1, 4.
    pub fn step(
        self,
        time: u64,
        presence: UserPresence,
        received: RecvStatus,
        packet: &[u8],
    ) -> Responded
        ensures { result ≡ step_of self time presence received packet.now }
    {
        if is_cut(received, packet.len()) {
            return refused(self, Refusal::PACKET_SIZE);
        }
        if time > Limits::LAST_TIME_MS {
            return refused(self, Refusal::TIME);
        }
        if time < self.last {
            return refused(self, Refusal::TIME);
        }
        let next = at_time(self, time);
        if time >= self.deadline {
            return Responded {
                wait: next,
                response: ended(Ending::TimedOut),
            };
        }
        Responded {
            wait: next,
            response: respond(self.interface, self.cid, presence, received, packet),
        }
    }

    // The same over a lent wait, which a refused step leaves as it came.
    pub fn respond_busy(
        &mut self,
        time: u64,
        presence: UserPresence,
        received: RecvStatus,
        packet: &[u8],
    ) -> Response
        ensures { record { wait = self.new; response = result } ≡ step_of self.old time presence received packet.now }
    {
        let responded = self.step(time, presence, received, packet);
        *self = responded.wait;
        responded.response
    }
}

// Whether a packet arrived that isn't 64 bytes.
fn is_cut(received: RecvStatus, len: usize) -> bool
    ensures { result ≡ is_cut received len }
{
    match received {
        RecvStatus::Timeout => false,
        RecvStatus::Received(_) => len != Limits::PACKET_SIZE,
    }
}

fn refused(wait: Wait, number: u8) -> Responded
    ensures { result ≡ refused_by wait number }
{
    Responded {
        wait,
        response: ended(Ending::Refused(number)),
    }
}

fn at_time(wait: Wait, time: u64) -> Wait
    ensures { result ≡ at time wait }
{
    Wait {
        deadline: wait.deadline,
        last: time,
        interface: wait.interface,
        cid: wait.cid,
    }
}
