//! The lines of a script.

ghost use Rattle.std.specs.Prelude.{◌≡◌, ◌==◌, ◌<◌, ◌∷◌, [], IfSome, length, position};
ghost use Rattle.std.specs.Option.{option_map_or};
ghost use Rattle.kernel_serve.specs.Script.{lines_of};

/// The first line, without its LF, and what comes after the LF; None where there is none.
#[tactic(auto, using(crate::proofs::FirstLine::split_some, crate::proofs::FirstLine::split_none))]
pub(crate) fn first_line(text: &[u8]) -> (&[u8], Option<&[u8]>)
    ensures lines { lines_of text.now ≡ result.0.now ∷ option_map_or (λ rest. lines_of rest.now) result.1 [] }
    ensures shorter { IfSome result.1 (λ rest. length rest.now < length text.now) }
{
    match line_end(text) {
        Some(end) => {
            let (line, _) = text.split_at(end);
            let (_, rest) = text.split_at(end + 1);
            (line, Some(rest))
        }
        None => (text, None),
    }
}

/// Where the first LF stands.
fn line_end(text: &[u8]) -> Option<usize>
    ensures place { result ≡ position (λ b. b == 10) text.now }
    ensures bound { IfSome result (λ n. n < length text.now) }
{
    text.iter().position(|byte| *byte == b'\n')
}
