//! Numbers in decimal.

ghost use Rattle.std.specs.Prelude.{◌≡◌, ◌≢◌, ℕ, ◌<◌, ◌^◌, IfSome, IfNone, IsTrue, true, false};
ghost use Rattle.std.specs.Fmt.{decimal};
ghost use Rattle.journal.specs.steps.Numbers.{StartsPlainly};

use std::str;

/// Whether bytes may write a number in decimal: not the empty text, nor one with a sign or a zero in front of others.
fn starts_plainly(bytes: &[u8]) -> bool
    ensures yes { result ≡ true → StartsPlainly bytes.now }
    ensures no { result ≡ false → ¬ StartsPlainly bytes.now }
{
    if bytes.is_empty() {
        return false;
    }
    let first = bytes[0];
    first != b'+' && (first != b'0' || bytes.len() == 1)
}

/// The number that bytes write in decimal, without leading zeros and with nothing else.
pub(crate) fn number(bytes: &[u8]) -> Option<u64>
    ensures some { IfSome result (λ n. bytes.now ≡ decimal n) }
    ensures none { IfNone result ((n : ℕ) → n < 2 ^ 64 → bytes.now ≢ decimal n) }
{
    if !starts_plainly(bytes) {
        return None;
    }
    let Ok(text) = str::from_utf8(bytes) else {
        return None;
    };
    match text.parse::<u64>() {
        Ok(number) => Some(number),
        Err(_) => None,
    }
}
