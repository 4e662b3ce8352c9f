// Reads the numbers that stand behind a keyword.
ghost use Rattle.std.specs.Prelude.{◌≡◌, ◌≤◌, IfOk, Ok, Err, MatchResult};
ghost use Rattle.job.specs.Words.{words};
ghost use Rattle.job.specs.Operands.{leading_number, closed, one, three, part, triple};

use crate::numbers::number;
use crate::unreadable::Unreadable;
use crate::words::next_word;

// The number that the first word is, and what follows that word.
pub(crate) fn first_number(text: &[u8], limit: u32) -> Result<(u32, &[u8]), Unreadable>
    ensures answer { MatchResult result (λ p. leading_number limit (words text.now) ≡ Ok (part p.0 (words p.1.now))) (λ e. leading_number limit (words text.now) ≡ Err e) }
    ensures within { IfOk result (λ p. p.0 ≤ limit) }
{
    let (word, after) = next_word(text).ok_or(Unreadable::MissingWord)?;
    let n = number(word, limit).ok_or(Unreadable::BadNumber)?;
    Ok((n, after))
}

// The value, if no word is left.
pub(crate) fn only<T: Copy>(value: T, text: &[u8]) -> Result<T, Unreadable>
    ensures { result ≡ closed value (words text.now) }
{
    match next_word(text) {
        None => Ok(value),
        Some(_) => Err(Unreadable::ExtraWord),
    }
}

// The one number that the words are.
pub(crate) fn one_number(text: &[u8], limit: u32) -> Result<u32, Unreadable>
    ensures answer { result ≡ one limit (words text.now) }
    ensures within { IfOk result (λ n. n ≤ limit) }
{
    let (n, rest) = first_number(text, limit)?;
    only(n, rest)
}

// The three numbers that the words are, each within its limit.
pub(crate) fn three_numbers(
    text: &[u8],
    a: u32,
    b: u32,
    c: u32,
) -> Result<(u32, u32, u32), Unreadable>
    ensures answer { MatchResult result (λ t. three a b c (words text.now) ≡ Ok (triple t.0 t.1 t.2)) (λ e. three a b c (words text.now) ≡ Err e) }
    ensures within { IfOk result (λ t. (t.0 ≤ a) × (t.1 ≤ b) × (t.2 ≤ c)) }
{
    let (x, rest) = first_number(text, a)?;
    let (y, rest) = first_number(rest, b)?;
    let (z, rest) = first_number(rest, c)?;
    only((x, y, z), rest)
}
