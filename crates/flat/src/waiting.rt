// The wait for a touch at the C boundary.
ghost use Rattle.std.specs.Prelude.{◌≡◌};
ghost use Rattle.touch.specs.Waiting.{begin_of, elapsed_of, step_of};
ghost use Rattle.flat.specs.TellingWaits.{presence_told, received_told, sent_told, count_told, ending_told, error_told, refusal_told, wait_outcome_of, made_wait_of, elapsed_number, flat_wait_of};

use touch::{Begun, Elapsed, RecvStatus, UserPresence, Wait};

// What the touch sensor said. Any other number is taken for FAILED.
#[derive(Clone, Copy)]
pub struct Presence;

impl Presence {
    pub const TIMEOUT: u8 = 0;

    pub const TOUCHED: u8 = 1;

    pub const FAILED: u8 = 2;
}

// What a step makes of a wait.
#[derive(Clone, Copy)]
pub struct Ending;

impl Ending {
    // refusal: its number, 1 or 4.
    pub const REFUSED: u8 = 0;

    pub const NOT_YET: u8 = 1;

    pub const TOUCHED: u8 = 2;

    pub const CANCELED: u8 = 3;

    // error: the sensor's number.
    pub const FAILED: u8 = 4;

    pub const TIMED_OUT: u8 = 5;
}

// A message of one byte.
#[repr(C)]
#[derive(Clone, Copy)]
pub struct Sent {
    pub interface: u32,
    pub cid: u32,
    pub cmd: u8,
    pub byte: u8,
    pub spare: u16,
}

// The first count of the two are to be sent, in this order. The others are 0.
#[repr(C)]
#[derive(Clone, Copy)]
pub struct WaitOutcome {
    pub first: Sent,
    pub second: Sent,
    pub count: u8,
    pub ending: u8,
    pub error: u8,
    pub refusal: u8,
}

// ---- beginning: a refused one leaves the wait as it came

#[derive(Clone, Copy)]
pub struct MadeWait {
    pub wait: Wait,
    pub refusal: u8,
}

pub fn wait_begin(old: Wait, interface: u32, cid: u32, time: u64, limit: u32) -> MadeWait
    ensures { result ≡ made_wait_of old (begin_of interface cid time limit) }
{
    match Wait::begin(interface, cid, time, limit) {
        Begun::Wait(wait) => MadeWait { wait, refusal: 0 },
        Begun::Refused(number) => MadeWait {
            wait: old,
            refusal: number,
        },
    }
}

// 0 for no, 1 for yes, else the refusal's number, 4.
pub fn wait_elapsed(wait: Wait, time: u64) -> u8
    ensures { result ≡ elapsed_number (elapsed_of wait time) }
{
    match wait.is_elapsed_at(time) {
        Elapsed::No => 0,
        Elapsed::Yes => 1,
        Elapsed::Refused(number) => number,
    }
}

// ---- a step

#[derive(Clone, Copy)]
pub struct FlatWait {
    pub wait: Wait,
    pub outcome: WaitOutcome,
}

pub fn wait_step(
    wait: Wait,
    time: u64,
    presence: u8,
    error: u8,
    arrived: u8,
    interface: u32,
    packet: &[u8],
) -> FlatWait
    ensures { result ≡ flat_wait_of (step_of wait time (presence_told presence error) (received_told arrived interface) packet.now) }
{
    let said = presence_of(presence, error);
    let received = received_of(arrived, interface);
    let responded = wait.step(time, said, received, packet);
    let response = responded.response;
    let outcome = wait_outcome(response);
    let next = responded.wait;
    FlatWait {
        wait: next,
        outcome,
    }
}

fn presence_of(presence: u8, error: u8) -> UserPresence
    ensures { result ≡ presence_told presence error }
{
    if presence == Presence::TIMEOUT {
        return UserPresence::Timeout;
    }
    if presence == Presence::TOUCHED {
        return UserPresence::Touched;
    }
    UserPresence::Failed(error)
}

fn received_of(arrived: u8, interface: u32) -> RecvStatus
    ensures { result ≡ received_told arrived interface }
{
    if arrived == 0 {
        return RecvStatus::Timeout;
    }
    RecvStatus::Received(interface)
}

fn wait_outcome(response: touch::Response) -> WaitOutcome
    ensures { result ≡ wait_outcome_of response }
{
    let first = response.first;
    let second = response.second;
    let ending = response.ending;
    WaitOutcome {
        first: sent_of(first),
        second: sent_of(second),
        count: sent_count(first, second),
        ending: ending_number(ending),
        error: error_number(ending),
        refusal: refusal_number(ending),
    }
}

fn sent_of(sent: touch::Sent) -> Sent
    ensures { result ≡ sent_told sent }
{
    match sent {
        touch::Sent::Nothing => Sent {
            interface: 0,
            cid: 0,
            cmd: 0,
            byte: 0,
            spare: 0,
        },
        touch::Sent::Byte {
            interface,
            cid,
            cmd,
            byte,
        } => Sent {
            interface,
            cid,
            cmd: cmd.number(),
            byte,
            spare: 0,
        },
    }
}

// Where first is nothing, second is too.
fn sent_count(first: touch::Sent, second: touch::Sent) -> u8
    ensures { result ≡ count_told first second }
{
    match first {
        touch::Sent::Nothing => 0,
        touch::Sent::Byte {
            interface: _,
            cid: _,
            cmd: _,
            byte: _,
        } => {
            match second {
                touch::Sent::Nothing => 1,
                touch::Sent::Byte {
                    interface: _,
                    cid: _,
                    cmd: _,
                    byte: _,
                } => 2,
            }
        }
    }
}

fn ending_number(ending: touch::Ending) -> u8
    ensures { result ≡ ending_told ending }
{
    match ending {
        touch::Ending::Refused(_) => Ending::REFUSED,
        touch::Ending::NotYet => Ending::NOT_YET,
        touch::Ending::Touched => Ending::TOUCHED,
        touch::Ending::Canceled => Ending::CANCELED,
        touch::Ending::TimedOut => Ending::TIMED_OUT,
        touch::Ending::Failed(_) => Ending::FAILED,
    }
}

fn error_number(ending: touch::Ending) -> u8
    ensures { result ≡ error_told ending }
{
    match ending {
        touch::Ending::Refused(_) => 0,
        touch::Ending::NotYet => 0,
        touch::Ending::Touched => 0,
        touch::Ending::Canceled => 0,
        touch::Ending::TimedOut => 0,
        touch::Ending::Failed(number) => number,
    }
}

fn refusal_number(ending: touch::Ending) -> u8
    ensures { result ≡ refusal_told ending }
{
    match ending {
        touch::Ending::Refused(number) => number,
        touch::Ending::NotYet => 0,
        touch::Ending::Touched => 0,
        touch::Ending::Canceled => 0,
        touch::Ending::TimedOut => 0,
        touch::Ending::Failed(_) => 0,
    }
}
