// Plain decimal numbers.
ghost use Rattle.std.specs.Prelude.{◌≡◌, ◌<◌, ◌^◌, ◌-◌, min, IfSome};
ghost use Rattle.std.specs.List.{list_all};
ghost use Rattle.rq_lines.specs.Spelled as spec;

/// Decimal digits without a leading zero. A number of 2^64 - 1 or more is taken as 2^64 - 1.
pub fn number_of(digits: &[u8]) -> Option<u64>
    ensures { result ≡ spec.number_of digits.now }
{
    if is_number(digits) {
        Some(value_of(digits))
    } else {
        None
    }
}

/// Whether these are digits without a leading zero.
fn is_number(digits: &[u8]) -> bool
    ensures { result ≡ spec.is_number digits.now }
{
    match digits {
        [] => false,
        [digit] => digit.is_ascii_digit(),
        [first, ..] => are_digits(digits) && *first >= b'1',
    }
}

fn are_digits(bytes: &[u8]) -> bool
    ensures { result ≡ list_all spec.is_digit bytes.now }
{
    bytes.iter().all(|byte| byte.is_ascii_digit())
}

/// The number that digits spell, or 2^64 - 1 if it is greater.
fn value_of(digits: &[u8]) -> u64
    ensures { result ≡ min (spec.value_behind 0 digits.now) (2 ^ 64 - 1) }
{
    let mut value: u64 = 0;
    for digit in digits {
        value = value
            .saturating_mul(10)
            .saturating_add(u64::from(digit.saturating_sub(b'0')));
    }
    value
}

/// 0 to 3.
pub fn pick_of(digits: &[u8]) -> Option<u8>
    ensures value { result ≡ spec.pick_of digits.now }
    ensures pick { IfSome result (λ pick. pick < 4) }
{
    match digits {
        [digit] if *digit >= b'0' && *digit <= b'3' => Some(*digit - b'0'),
        _ => None,
    }
}
