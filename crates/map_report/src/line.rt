//! The lines of an input.
ghost use Rattle.std.specs.Prelude.{◌≡◌, [], length, MatchOption};
ghost use Rattle.map_report.specs.Lines.{Splits};
ghost use Rattle.map_report.specs.Parts.{Clear, Parts};

// What stands before the first such byte of a text and behind it, or none where it does not occur.
pub fn split_once(text: &[u8], byte: u8) -> Option<(&[u8], &[u8])>
    ensures { MatchOption result (Clear byte text.now (length text.now))
        (λ x. Parts byte text.now x.0.now x.1.now) }
{
    let at = text.iter().position(|found| *found == byte)?;
    Some((&text[..at], &text[at + 1..]))
}

// The first line of an input and what stands behind its line feed, or none of an empty input.
#[tactic(auto, using(crate::proofs::Lines::splits_parts, crate::proofs::Lines::splits_whole))]
pub fn first_line(input: &[u8]) -> Option<(&[u8], &[u8])>
    ensures { MatchOption result (input.now ≡ []) (λ x. Splits input.now x.0.now x.1.now) }
{
    if input.is_empty() {
        return None;
    }
    split_once(input, b'\n').or(Some((input, &[])))
}
