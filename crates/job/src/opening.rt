// Reads what stands behind `open`: a gate number and the book to open the gate over.
ghost use Rattle.std.specs.Prelude.{◌≡◌, None, Ok, Err, MatchOption, MatchResult};
ghost use Rattle.job.specs.Books.{listed, behind_over, recalling, layer, layers, floor, all_held, held_in, entries, sheets, floor_of};
ghost use Rattle.job.specs.Commands.{opening, said};
ghost use Rattle.job.specs.declared.command.Command.TheVariants as commands;
ghost use Rattle.job.specs.Operands.{part};
ghost use Rattle.job.specs.Words.{words};

use crate::command::{Ground, Layers, Opening};
use crate::limits::{GATE, RECORDS, SMALL};
use crate::lists::read_entry;
use crate::numbers::number;
use crate::operands::first_number;
use crate::unreadable::Unreadable;
use crate::words::{Words, next_word};

// What follows the serials of a layer and the word `over` behind them. A loop by hand: by `find` over the words the proof was tried and did not close.
fn past_over(text: &[u8]) -> Result<&[u8], Unreadable>
    ensures { MatchResult result (λ after. behind_over (words text.now) ≡ Ok (words after.now)) (λ e. behind_over (words text.now) ≡ Err e) }
{
    let mut rest = text;
    while let Some((word, after)) = next_word(rest) {
        if word == b"over".as_slice() {
            return Ok(after);
        }
        number(word, SMALL).ok_or(Unreadable::BadNumber)?;
        rest = after;
    }
    Err(Unreadable::MissingWord)
}

// What follows the word `recall`, where the text begins with it.
fn behind_recall(text: &[u8]) -> Option<&[u8]>
    ensures { MatchOption result (layer (words text.now) ≡ Ok None) (λ after. layer (words text.now) ≡ recalling (listed (words after.now)) (behind_over (words after.now))) }
{
    match next_word(text)? {
        (b"recall", after) => Some(after),
        _ => None,
    }
}

// The layers that the text begins with, two at most, and what follows them.
fn read_layers(text: &[u8]) -> Result<(Layers<'_>, &[u8]), Unreadable>
    ensures { MatchResult result (λ p. layers (words text.now) ≡ Ok (part (sheets p.0) (words p.1.now))) (λ e. layers (words text.now) ≡ Err e) }
{
    let Some(first) = behind_recall(text) else {
        return Ok((Layers::Bare, text));
    };
    let below = past_over(first)?;
    let Some(second) = behind_recall(below) else {
        return Ok((Layers::One(first), below));
    };
    let lowest = past_over(second)?;
    Ok((Layers::Two(first, second), lowest))
}

// The lowest book, and what follows it.
fn read_ground(text: &[u8]) -> Result<(Ground, &[u8]), Unreadable>
    ensures { MatchResult result (λ p. floor (words text.now) ≡ Ok (part (floor_of p.0) (words p.1.now))) (λ e. floor (words text.now) ≡ Err e) }
{
    let (word, after) = next_word(text).ok_or(Unreadable::MissingWord)?;
    match word {
        b"card" => Ok((Ground::Card, after)),
        b"ledger" => {
            let (records, rest) = first_number(after, RECORDS)?;
            Ok((Ground::Ledger(records), rest))
        }
        _ => Err(Unreadable::BadBook),
    }
}

// Whether every word of the text is an entry.
fn all_entries(text: &[u8]) -> bool
    ensures { result ≡ all_held (words text.now) }
{
    Words(text).all(|word| read_entry(word).is_some())
}

// The text of the entries behind `with`, a text without words where nothing is left.
fn read_entries(rest: &[u8]) -> Result<&[u8], Unreadable>
    ensures { MatchResult result (λ text. entries (words rest.now) ≡ Ok (held_in (words text.now))) (λ e. entries (words rest.now) ≡ Err e) }
{
    let Some((word, text)) = next_word(rest) else {
        return Ok(rest);
    };
    if word != b"with".as_slice() {
        return Err(Unreadable::ExtraWord);
    }
    if next_word(text).is_none() {
        return Err(Unreadable::MissingWord);
    }
    if !all_entries(text) {
        return Err(Unreadable::BadEntry);
    }
    Ok(text)
}

// The gate and the book that stand behind `open`.
pub(crate) fn read_opening(rest: &[u8]) -> Result<Opening<'_>, Unreadable>
    ensures { MatchResult result (λ o. opening (words rest.now) ≡ Ok (said (commands.Open o))) (λ e. opening (words rest.now) ≡ Err e) }
{
    let (gate, rest) = first_number(rest, GATE)?;
    let (layers, rest) = read_layers(rest)?;
    let (ground, rest) = read_ground(rest)?;
    let entries = read_entries(rest)?;
    Ok(Opening {
        gate,
        layers,
        ground,
        entries,
    })
}
