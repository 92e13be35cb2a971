// A register as one number, and the two that a state keeps of it: the sum, and the byte that waits.
ghost use Rattle.std.specs.Prelude.{◌≡◌, ◌+◌, ◌/◌, ◌%◌, ◌^◌, ◌<◌};
ghost use Rattle.checksum.specs.Machine.{register_of};
ghost use Rattle.format.specs.Formats.{value_in, waiting_in, register_from};
ghost use Rattle.format.specs.Methods.{format_of};
ghost use Rattle.format.specs.Packed.{packed};

use crate::{Kind, kind_of};
use checksum::Register;

// The sum, and 65,536 times the byte that waits.
pub fn packed(register: Register) -> u32
    ensures { result ≡ packed register }
{
    u32::from(register.value) + 65536 * u32::from(register.waiting)
}

// The sum, and the byte that waits: of what waits no more than its low eight bits count.
pub fn unpacked(register: u32) -> Register
    ensures { result ≡ register_of (register % 65536) (register / 65536 % 256) }
{
    Register {
        value: (register % 65536) as u16,
        waiting: (register / 65536 % 256) as u8,
    }
}

// The most that a state may keep as the value of a register: as many bits as a guard has.
pub fn most_value(method: u8) -> u32
    ensures { result + 1 ≡ 256 ^ (format_of method).quarter }
{
    match kind_of(method) {
        Kind::Crc | Kind::Checksum => 0xFFFF,
        Kind::Large => 0xFFFFFFFF,
    }
}

// A register from what a state keeps of it: its value, and above a guard's bits the byte that waits; that it is a byte is told to the caller.
pub fn register_of(method: u8, value: u32, waiting: u8) -> u64
    ensures value { result ≡ register_from (format_of method) value waiting }
    ensures waiting_bound { waiting < 256 }
{
    match kind_of(method) {
        Kind::Crc | Kind::Checksum => u64::from(value) + 65536 * u64::from(waiting),
        Kind::Large => u64::from(value) + 4294967296 * u64::from(waiting),
    }
}

// And what it keeps of a register.
// Stays: beside `reference`, which cuts a number of another type at another width: one function of both would take type and width along, and be no plainer.
pub fn value_in(method: u8, register: u32) -> u32
    ensures { result ≡ value_in (format_of method) register }
{
    match kind_of(method) {
        Kind::Crc | Kind::Checksum => register % 65536,
        Kind::Large => register,
    }
}

pub fn waiting_in(method: u8, register: u32) -> u8
    ensures { result ≡ waiting_in (format_of method) register }
{
    match kind_of(method) {
        Kind::Crc | Kind::Checksum => (register / 65536 % 256) as u8,
        Kind::Large => 0,
    }
}
