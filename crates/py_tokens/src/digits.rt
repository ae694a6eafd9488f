//! Digits of a base, with underscores between them.

ghost use Rattle.std.specs.Prelude.{◌≡◌, ◌≤◌, ◌↔◌, min, IfSome, IsSome, MatchOption};
ghost use Rattle.py_tokens.specs.Digits.{IsDigitOf, digit_value, IsDigits, value_of};

/// The first value that is too big for a small integer.
pub(crate) const TOO_BIG: u64 = 1 << 30;

/// The digit of the base that a byte is.
pub(crate) fn digit_of(byte: u8, base: u64) -> Option<u64>
    ensures { MatchOption result (¬ IsDigitOf base byte)
        (λ digit. IsDigitOf base byte × (digit ≡ digit_value byte)) }
{
    let digit = match byte {
        b'0'..=b'9' => byte - b'0',
        b'A'..=b'Z' => byte - b'A' + 10,
        b'a'..=b'z' => byte - b'a' + 10,
        _ => return None,
    };
    (u64::from(digit) < base).then_some(u64::from(digit))
}

/// The value of the text, if it is digits. One that is too big is given as the least such.
pub(crate) fn value_of_digits(text: &[u8], base: u64) -> Option<u64>
    requires low { 1 ≤ base }
    requires high { base ≤ 16 }
    ensures digits { IsSome result ↔ IsDigits base text.now }
    ensures value { IfSome result (λ value. value ≡ min (value_of base text.now) TOO_BIG) }
{
    let mut value = 0;
    let mut after_digit = false;
    for byte in text {
        if *byte == b'_' {
            if !after_digit {
                return None;
            }
            after_digit = false;
        } else {
            value = (base * value + digit_of(*byte, base)?).min(TOO_BIG);
            after_digit = true;
        }
    }
    after_digit.then_some(value)
}
