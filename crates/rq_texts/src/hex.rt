//! Hexadecimal digits.

ghost use Rattle.std.specs.Prelude.{◌≡◌, ◌<◌, ◌++◌, flat_map, length, IfOk, OnOk};
ghost use Rattle.std.specs.Fmt.{signed_decimal};
ghost use Rattle.rq_texts.specs.Hex as spec;

use rq_values::{NoMemory, Text};
use std::alloc::Global;

fn hex_digit(digit: u8) -> u8
    requires { digit < 16 }
    ensures { result ≡ spec.hex_digit digit }
{
    if digit < 10 { 48 + digit } else { 55 + digit }
}

#[tactic(auto, using(crate::proofs::Digits::hex_byte_plain))]
fn put_byte(digits: &mut Text, byte: u8) -> Result<(), NoMemory>
    ensures { OnOk result (digits.new ≡ digits.old ++ spec.hex_byte byte) }
{
    digits.push_plain(&[hex_digit(byte / 16), hex_digit(byte % 16)])
}

/// The bytes in hexadecimal, two digits each.
pub fn hex_text(alloc: Global, bytes: &[u8]) -> Result<Text, NoMemory>
    ensures { IfOk result (λ text. text ≡ flat_map spec.hex_byte bytes.now) }
{
    let mut digits = Text::empty(alloc);
    for byte in bytes {
        match put_byte(&mut digits, *byte) {
            Ok(()) => {}
            Err(e) => {
                drop(digits);
                return Err(e);
            }
        }
    }
    Ok(digits)
}

/// The decimal digits of the integer, and its sign, in hexadecimal.
pub fn hex_integer(alloc: Global, number: i64) -> Result<Text, NoMemory>
    ensures { IfOk result (λ text. text ≡ flat_map spec.hex_byte (signed_decimal number)) }
{
    let mut buffer = itoa::Buffer::new();
    hex_text(alloc, buffer.format(number).as_bytes())
}

/// How many decimal digits the integer has, its sign counted.
pub fn digit_count(number: i64) -> usize
    ensures { result ≡ length (signed_decimal number) }
{
    let mut buffer = itoa::Buffer::new();
    buffer.format(number).len()
}
