// The entries for C and Rust, which snjofrask_c exports. Each is thin over the same by value; flags are numbers, of which 0 is not set.
#![tactic(auto)]

ghost use Rattle.std.specs.Prelude.{◌≡◌};
ghost use Rattle.hid.specs.Transport.{step_of};
ghost use Rattle.hid.specs.MainHid.{main_step_of};
ghost use Rattle.hid.specs.SetUp.{new_of, main_new_of};
ghost use Rattle.hid.specs.Questions.{locked_of, winking_of};
ghost use Rattle.ctaphid.specs.Host.{init_of};
ghost use Rattle.packet.specs.Reading.{reading_of};
ghost use Rattle.host.specs.Reading.{read_of};
ghost use Rattle.send.specs.Sending.{count_of, write_of, split_of};
ghost use Rattle.touch.specs.Waiting.{begin_of, elapsed_of, step_of as wait_step_of};
ghost use Rattle.ble.specs.Writing.{count_of as fragments_of, write_of as fragment_of};
ghost use Rattle.ble.specs.Reading.{read_of as ble_read_of};
ghost use Rattle.flat.specs.TellingFragments.{fragments_outcome, laid, laid_of, ble_flat_of};
ghost use Rattle.flat.specs.TellingWaits.{presence_told, received_told, made_wait_of, elapsed_number, flat_wait_of};
ghost use Rattle.flat.specs.Telling.{is_set, read_outcome, count_outcome, running_number, made_of, main_made_of, flat, flat_of, main_flat, main_flat_of, put, put_of, host_flat, host_flat_of, init_outcome_of};

use flat::{InitOutcome, Outcome, WaitOutcome};
use hid::{CtapHid, MainHid};
use host::Collection;
use touch::Wait;

// ---- the transport: checks 1 to 7

// A fresh transport, with the largest message that it takes and the numbers of the vendor commands that it knows. 0, or refusal 5 or 13, which leaves hid as
// it came.
pub fn snjofrask_transport_new(hid: &mut CtapHid, max: usize, u2f: u8, vendor: &[u8]) -> u8
    ensures { record { hid = hid.new; refusal = result } ≡ made_of hid.old (new_of max (is_set u2f) vendor.now) }
{
    let made = flat::transport_new(*hid, max, u2f, vendor);
    *hid = made.hid;
    made.refusal
}

// A packet at a time in milliseconds. A refused step leaves hid and both buffers as they came.
pub fn snjofrask_transport_step(
    hid: &mut CtapHid,
    time: u64,
    disabled: u8,
    packet: &[u8],
    message: &mut [u8],
    reply: &mut [u8],
) -> Outcome
    ensures { flat (record { hid = hid.new; outcome = result }) message.new reply.new ≡ flat_of (step_of hid.old time (is_set disabled) packet.now message.old reply.old) }
{
    let stepped = flat::transport_step(*hid, time, disabled, packet, message, reply);
    *hid = stepped.hid;
    stepped.outcome
}

// Whether a lock runs: 0 no, 1 yes, or refusal 3 or 4.
pub fn snjofrask_is_locked(hid: &CtapHid, time: u64) -> u8
    ensures { result ≡ running_number (locked_of hid.now time) }
{
    flat::is_locked(*hid, time)
}

// ---- the device: checks 1 to 8

pub fn snjofrask_device_new(hid: &mut MainHid, max: usize, u2f: u8, vendor: &[u8]) -> u8
    ensures { record { hid = hid.new; refusal = result } ≡ main_made_of hid.old (main_new_of max (is_set u2f) vendor.now) }
{
    let made = flat::device_new(*hid, max, u2f, vendor);
    *hid = made.hid;
    made.refusal
}

pub fn snjofrask_device_step(
    hid: &mut MainHid,
    time: u64,
    disabled: u8,
    packet: &[u8],
    message: &mut [u8],
    reply: &mut [u8],
) -> Outcome
    ensures { main_flat (record { hid = hid.new; outcome = result }) message.new reply.new ≡ main_flat_of (main_step_of hid.old time (is_set disabled) packet.now message.old reply.old) }
{
    let stepped = flat::device_step(*hid, time, disabled, packet, message, reply);
    *hid = stepped.hid;
    stepped.outcome
}

// Whether a wink runs: 0 no, 1 yes, or refusal 3 or 4.
pub fn snjofrask_is_winking(hid: &MainHid, time: u64) -> u8
    ensures { result ≡ running_number (winking_of hid.now time) }
{
    flat::is_winking(*hid, time)
}

// ---- the wait for a touch

// A wait for a request of this interface and channel, from a time on, with a limit in milliseconds. 0, or refusal 4, which leaves wait as it came.
pub fn snjofrask_wait_begin(wait: &mut Wait, interface: u32, cid: u32, time: u64, limit: u32) -> u8
    ensures { record { wait = wait.new; refusal = result } ≡ made_wait_of wait.old (begin_of interface cid time limit) }
{
    let made = flat::wait_begin(*wait, interface, cid, time, limit);
    *wait = made.wait;
    made.refusal
}

// Whether the limit has elapsed: 0 no, 1 yes, or refusal 4.
pub fn snjofrask_wait_elapsed(wait: &Wait, time: u64) -> u8
    ensures { result ≡ elapsed_number (elapsed_of wait.now time) }
{
    flat::wait_elapsed(*wait, time)
}

// A step that began at a time. Where no packet arrived, interface and packet are not looked at. A refused step, by 1 or 4, leaves wait as it came.
pub fn snjofrask_wait_step(
    wait: &mut Wait,
    time: u64,
    presence: u8,
    error: u8,
    arrived: u8,
    interface: u32,
    packet: &[u8],
) -> WaitOutcome
    ensures { record { wait = wait.new; outcome = result } ≡ flat_wait_of (wait_step_of wait.old time (presence_told presence error) (received_told arrived interface) packet.now) }
{
    let stepped = flat::wait_step(*wait, time, presence, error, arrived, interface, packet);
    *wait = stepped.wait;
    stepped.outcome
}

// ---- packets

pub fn snjofrask_read_packet(packet: &[u8]) -> Outcome
    ensures { result ≡ read_outcome (reading_of packet.now) }
{
    flat::read_packet(packet)
}

pub fn snjofrask_packet_count(len: usize) -> Outcome
    ensures { result ≡ count_outcome (count_of len) }
{
    flat::packet_count(len)
}

// 0, or refusal 1, 12, 7 or 6, which leaves the packet as it came.
pub fn snjofrask_write_packet(
    cid: u32,
    cmd: u8,
    payload: &[u8],
    index: usize,
    packet: &mut [u8],
) -> u8
    ensures { put result packet.new ≡ put_of (write_of cid cmd payload.now index packet.old) }
{
    flat::write_packet(cid, cmd, payload, index, packet)
}

// The same for a reply of any length: one that is too long becomes CBOR with the byte given.
pub fn snjofrask_split_message(
    cid: u32,
    cmd: u8,
    payload: &[u8],
    internal_error: u8,
    index: usize,
    packet: &mut [u8],
) -> u8
    ensures { put result packet.new ≡ put_of (split_of cid cmd payload.now internal_error index packet.old) }
{
    flat::split_message(cid, cmd, payload, internal_error, index, packet)
}

// ---- the host

// A packet, read for channel cid. A fresh collection is all zeros. A packet that is refused, by 1, 3, 9 or 10, or ignored leaves the collection and the buffer
// as they came.
pub fn snjofrask_host_read(
    collection: &mut Collection,
    cid: u32,
    packet: &[u8],
    buffer: &mut [u8],
) -> Outcome
    ensures { host_flat (record { collection = collection.new; outcome = result }) buffer.new ≡ host_flat_of (read_of collection.old cid packet.now buffer.old) }
{
    let progress = flat::host_read(*collection, cid, packet, buffer);
    *collection = progress.collection;
    progress.outcome
}

// The fields of a reply to INIT, from its command and payload, and how many bytes follow them; or refusal 11.
pub fn snjofrask_init_reply(cmd: u8, payload: &[u8]) -> InitOutcome
    ensures { result ≡ init_outcome_of (init_of cmd payload.now) }
{
    flat::init_reply(cmd, payload)
}

// ---- Bluetooth

pub fn snjofrask_ble_fragment_count(size: usize, len: usize) -> Outcome
    ensures { result ≡ fragments_outcome (fragments_of size len) }
{
    flat::ble_fragment_count(size, len)
}

// How many bytes the fragment has, as a count; or refusal 14, 2, 12, 7 or 6, which leaves the buffer as it came.
pub fn snjofrask_ble_write_fragment(
    size: usize,
    cmd: u8,
    payload: &[u8],
    index: usize,
    buffer: &mut [u8],
) -> Outcome
    ensures { laid result buffer.new ≡ laid_of (fragment_of size cmd payload.now index buffer.old) }
{
    flat::ble_write_fragment(size, cmd, payload, index, buffer)
}

// A fresh collection is all zeros. A fragment that is refused, by 14, 3, 15, 16, 17 or 18, leaves the collection and the buffer as they came.
pub fn snjofrask_ble_read_fragment(
    collection: &mut Collection,
    size: usize,
    fragment: &[u8],
    buffer: &mut [u8],
) -> Outcome
    ensures { host_flat (record { collection = collection.new; outcome = result }) buffer.new ≡ ble_flat_of (ble_read_of collection.old size fragment.now buffer.old) }
{
    let progress = flat::ble_read_fragment(*collection, size, fragment, buffer);
    *collection = progress.collection;
    progress.outcome
}
