//! The number on the command line.
use std::rt::Env;

/// The number that is the first word, or 0.
pub fn count_of(rt: &impl Env) -> u64 {
    let mut buffer = [0_u8; 20];
    match rt.arg(1, &mut buffer) {
        Ok(len) => number(&buffer[..len]),
        Err(_) => 0,
    }
}

fn number(digits: &[u8]) -> u64 {
    let mut number = 0_u64;
    for digit in digits {
        number = number
            .saturating_mul(10)
            .saturating_add(u64::from(digit.saturating_sub(b'0')));
    }
    number
}
