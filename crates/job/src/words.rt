// Cuts a text at a byte, and a line into its words.
ghost use Rattle.std.specs.Prelude.{◌≡◌, [], ◌∷◌, MatchOption};
ghost use Rattle.std.specs.List.{flat_map, All};
ghost use Rattle.job.specs.Words.{front, behind, trimmed, word, rest, words, without, Proper};

// What stands before the first `mark`, and what stands behind it.
pub(crate) fn cut(text: &[u8], mark: u8) -> (&[u8], &[u8])
    ensures before { result.0.now ≡ front mark text.now }
    ensures after { result.1.now ≡ behind mark text.now }
{
    match text.iter().position(|&b| b == mark) {
        Some(end) => (&text[..end], &text[end + 1..]),
        None => (text, &[]),
    }
}

// The text without its leading spaces.
fn trim(text: &[u8]) -> &[u8]
    ensures { result.now ≡ trimmed text.now }
{
    match text.iter().position(|&b| b != b' ') {
        Some(start) => &text[start..],
        None => &[],
    }
}

// The first word of the line and what follows it, or nothing where the line has no word.
#[tactic(auto, using(crate::proofs::Splits::words_none, crate::proofs::Splits::word_some, crate::proofs::Splits::words_whole, crate::proofs::Splits::words_proper))]
pub(crate) fn next_word(line: &[u8]) -> Option<(&[u8], &[u8])>
    ensures first { MatchOption result (words line.now ≡ []) (λ p. words line.now ≡ p.0.now ∷ words p.1.now) }
    ensures parts { MatchOption result (word line.now ≡ []) (λ p. (p.0.now ≡ word line.now) × (p.1.now ≡ rest line.now)) }
    ensures whole { flat_map (λ w. w) (words line.now) ≡ without 32 line.now }
    ensures proper { All Proper (words line.now) }
{
    let (first, after) = cut(trim(line), b' ');
    if first.is_empty() {
        None
    } else {
        Some((first, after))
    }
}

// The words of a line, in order.
#[derive(Clone, Copy)]
pub(crate) struct Words<'a>(pub(crate) &'a [u8]);

impl<'a> Iterator for Words<'a> {
    ghost use Rattle.std.specs.Iterator.{YieldsFirstRef, item_count};
    ghost use Rattle.job.specs.Words.{words};

    type Item = &'a [u8];

    ghost next_gives = { YieldsFirstRef (λ s. words s.0.now) };

    ghost remaining = { item_count (λ s. words s.0.now) };

    fn next(&mut self) -> Option<&'a [u8]> {
        let (word, after) = next_word(self.0)?;
        self.0 = after;
        Some(word)
    }
}
