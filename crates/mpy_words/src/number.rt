//! Numbers in words.

ghost use Rattle.std.specs.Prelude.{◌≡◌, ◌+◌, ◌<◌, ◌≤◌, ◌^◌, IfSome};
ghost use Rattle.mpy_words.specs.Number as spec;

/// A number, or one past the bound for each that is.
fn bounded(most: u64, n: u64) -> u64
    requires { most < 2 ^ 60 }
    ensures within { n ≤ most → result ≡ n }
    ensures past { most < n → result ≡ most + 1 }
    ensures small { result ≤ most + 1 }
{
    if n <= most { n } else { most + 1 }
}

/// The number that a word is, where it is at most so great.
#[tactic(auto, unfolding(crate::specs::Number::value_of))]
pub fn number(most: u64, word: &[u8]) -> Option<u64>
    requires { most < 2 ^ 60 }
    ensures value { result ≡ spec.number_of most word.now }
    ensures within { IfSome result (λ n. n ≤ most) }
{
    if word.is_empty() {
        return None;
    }
    let mut sum = 0;
    let mut rest = word;
    'more: while let Some((byte, behind)) = rest.split_first() {
        if !byte.is_ascii_digit() {
            return None;
        }
        sum = bounded(most, 10 * sum + u64::from(*byte - b'0'));
        rest = behind;
    }
    if sum <= most { Some(sum) } else { None }
}
