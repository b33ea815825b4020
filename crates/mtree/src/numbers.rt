// Numbers as texts hold them.
ghost use Rattle.std.specs.Prelude.{◌≡◌, ◌^◌, ◌<◌, ◌≤◌, length, IfSome};
ghost use Rattle.mtree.specs.Numbers.{digit_value, wide_numeral, mode_of, size_of, content_of};

// `char::to_digit` would take capital letters too.
fn digit_value(base: u64, digit: u8) -> Option<u64>
    ensures value { result ≡ digit_value base digit }
    ensures below { IfSome result (λ d. d < base) }
{
    let value = match digit {
        b'0'..=b'9' => Some(digit - b'0'),
        b'a'..=b'f' => Some(digit - b'a' + 10),
        _ => None,
    };
    value.map(u64::from).filter(|value| *value < base)
}

// The number that digits write, if it has 64 bits at most.
#[tactic(auto, using(crate::proofs::Digits::numeral_steps))]
pub fn read_numeral(base: u64, digits: &[u8]) -> Option<u64>
    ensures value { result ≡ wide_numeral base digits.now }
    ensures small { base ≤ 16 → IfSome result (λ n. n < 16 ^ length digits.now) }
{
    let mut number: u64 = 0;
    for digit in digits {
        let digit = digit_value(base, *digit)?;
        number = number.checked_mul(base)?.checked_add(digit)?;
    }
    Some(number)
}

// Four octal digits.
#[tactic(auto, using(crate::proofs::Digits::numeral_fits))]
pub(crate) fn read_mode(value: &[u8]) -> Option<u16>
    ensures { result ≡ mode_of value.now }
{
    match value.len() {
        4 => read_numeral(8, value).map(|mode| mode as u16),
        _ => None,
    }
}

// One to thirteen digits, at most 2^40, with no zero before another digit.
#[tactic(auto, using(crate::proofs::Digits::numeral_fits))]
pub(crate) fn read_size(value: &[u8]) -> Option<u64>
    ensures { result ≡ size_of value.now }
{
    match value {
        [] | [b'0', _, ..] => None,
        _ if value.len() > 13 => None,
        _ => read_numeral(10, value).filter(|size| *size <= 1 << 40),
    }
}

// Sixteen hexadecimal digits.
#[tactic(auto, using(crate::proofs::Digits::numeral_fits))]
pub fn read_content(value: &[u8]) -> Option<u64>
    ensures { result ≡ content_of value.now }
{
    match value.len() {
        16 => read_numeral(16, value),
        _ => None,
    }
}
