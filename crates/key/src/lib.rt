// A key with two HID interfaces, main and vendor, after OpenSK's lib.rs. Each has its own channels, lock, transaction and maximum; while one holds a running lock,
// the other is stepped as disabled. Main is a device; vendor is a transport with a check 8 of its own.
#![tactic(auto)]

mod parts;
mod questions;
mod set_up;
mod soundness;
mod stepping;
mod vendor_hid;

use hid::{MainHid, MessageAssembler};

// What is vendor's own, as in a transport. spare is ignored, and stays as it is.
#[repr(C)]
#[derive(Clone, Copy)]
pub struct VendorHid {
    pub assembler: MessageAssembler,
    pub lock: u64,
    pub allocated: u32,
    pub locked: u32,
    pub max: u32,
    pub spare: u16,
    pub still_due: u16,
}

// Both, without padding. The last time, U2F and the vendor commands are main's, and serve both.
#[repr(C)]
#[derive(Clone, Copy)]
pub struct Key {
    pub main: MainHid,
    pub vendor: VendorHid,
}

// A fresh key, or a refusal.
#[derive(Clone, Copy)]
pub enum KeyReady {
    Key(Key),
    Refused(u8),
}
