ghost use Rattle.std.specs.Prelude.{◌≡◌, ◌<◌, ◌^◌, IfOk, decimal};
ghost use Rattle.std.specs.Option.{option_copied};
ghost use Rattle.spl_ops.specs.Numbers.{number_of, number_at};

use itoa::Buffer;
use spl_message::{NoMemory, Value};
use std::alloc::Global;

/// The most decimal digits of a number.
const DIGITS: usize = 20;

/// The number that bytes spell in decimal, and 0 where they spell none of 64 bits.
pub fn read_number(bytes: &[u8]) -> u64
    ensures { result ≡ number_of bytes.now }
{
    if bytes.len() > DIGITS {
        return 0;
    }
    let mut number: u64 = 0;
    for byte in bytes {
        if !byte.is_ascii_digit() {
            return 0;
        }
        let digit = (*byte - b'0') as u64;
        if number > (u64::MAX - digit) / 10 {
            return 0;
        }
        number = 10 * number + digit;
    }
    number
}

/// The number of the old value, and 0 where there is none.
pub fn old_number(old: Option<&Value>) -> u64
    ensures { result ≡ number_at (option_copied old.entry) }
{
    match old {
        Some(value) => read_number(value.bytes()),
        None => 0,
    }
}

/// The value that spells the number, without leading zeros.
pub fn write_number(alloc: Global, number: u64) -> Result<Value, NoMemory>
    ensures { IfOk result (λ value. value ≡ decimal number) }
{
    let mut buffer = Buffer::new();
    let text = buffer.format(number);
    Value::read(alloc, text.as_bytes()).map_err(|_| NoMemory)
}
