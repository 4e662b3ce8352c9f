// Reads a word as a number.
ghost use Rattle.std.specs.Prelude.{◌≡◌, ℕ, ◌≤◌, IfSome, Some};
ghost use Rattle.job.specs.Numbers.{number, Number};

// The value of the word, if it is a number of at most `limit`. A value that passes the limit ends the reading, so nothing wraps.
// `str::parse` would take a sign too.
pub(crate) fn number(text: &[u8], limit: u32) -> Option<u32>
    ensures value { result ≡ number limit text.now }
    ensures within { IfSome result (λ n. n ≤ limit) }
    ensures exactly { (n : ℕ) → (result ≡ Some n → Number limit text.now n) × (Number limit text.now n → result ≡ Some n) }
{
    if text.is_empty() {
        return None;
    }
    let most = limit as u64;
    let mut value: u64 = 0;
    for c in text {
        if !c.is_ascii_digit() {
            return None;
        }
        value = value * 10 + (*c - b'0') as u64;
        if value > most {
            return None;
        }
    }
    Some(value as u32)
}
