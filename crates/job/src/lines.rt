// Cuts a job into its lines.
ghost use Rattle.std.specs.Prelude.{◌≡◌, [], ◌∷◌, MatchOption};
ghost use Rattle.std.specs.List.{All};
ghost use Rattle.job.specs.Words.{Lacks};
ghost use Rattle.job.specs.Lines.{lines, Whole};

use crate::words::cut;

// The first line of the job and what follows its newline, or nothing where the job is at its end.
#[tactic(auto, using(crate::proofs::Splits::lines_whole, crate::proofs::Splits::line_first, crate::proofs::Splits::split_lacks))]
pub fn next_line(job: &[u8]) -> Option<(&[u8], &[u8])>
    ensures first { MatchOption result (job.now ≡ []) (λ p. lines job.now ≡ p.0.now ∷ lines p.1.now) }
    ensures whole { Whole job.now }
    ensures single { All (Lacks 10) (lines job.now) }
{
    if job.is_empty() {
        return None;
    }
    Some(cut(job, b'\n'))
}

// The lines of a job, in order.
#[derive(Clone, Copy)]
pub struct Lines<'a>(pub &'a [u8]);

impl<'a> Iterator for Lines<'a> {
    ghost use Rattle.std.specs.Iterator.{YieldsFirstRef, item_count};
    ghost use Rattle.job.specs.Lines.{lines};

    type Item = &'a [u8];

    ghost next_gives = { YieldsFirstRef (λ s. lines s.0.now) };

    ghost remaining = { item_count (λ s. lines s.0.now) };

    fn next(&mut self) -> Option<&'a [u8]> {
        let (line, after) = next_line(self.0)?;
        self.0 = after;
        Some(line)
    }
}
