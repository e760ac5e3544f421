// A text as lines.
ghost use Rattle.std.specs.Prelude.{◌≡◌, ◌<◌, ◌==◌, ◌∷◌, [], length, position, IfNone, IfSome};
ghost use Rattle.std.specs.List.{after_first};
ghost use Rattle.std.specs.Str.Lines.{lines, strip_carriage_return};

/// A line without the carriage return at its end, if it has one.
fn without_return(line: &[u8]) -> &[u8]
    ensures { result.now ≡ strip_carriage_return line.now }
{
    match line {
        [front @ .., b'\r'] => front,
        _ => line,
    }
}

fn feed_at(text: &[u8]) -> Option<usize>
    ensures at { result ≡ position (λ b. b == 10) text.now }
    ensures within { IfSome result (λ at. at < length text.now) }
{
    text.iter().position(|byte| *byte == b'\n')
}

/// The first line of a text, and the text behind its line feed. `None` where the text is empty.
///
/// A line ends at a line feed, and one carriage return directly before it is dropped. A last part without a line
/// feed is a line, and keeps a carriage return.
#[tactic(auto, using(crate::proofs::SplitLemmas::first_line, crate::proofs::SplitLemmas::only_line, crate::proofs::SplitLemmas::behind_first, crate::proofs::SplitLemmas::behind_none))]
pub fn next_line(text: &[u8]) -> Option<(&[u8], &[u8])>
    ensures none { IfNone result (text.now ≡ []) }
    ensures first { IfSome result (λ parts. lines text.now ≡ parts.0.now ∷ lines parts.1.now) }
    ensures behind { IfSome result (λ parts. parts.1.now ≡ after_first (λ b. b == 10) text.now) }
{
    if text.is_empty() {
        return None;
    }
    match feed_at(text) {
        Some(end) => Some((without_return(&text[..end]), &text[end + 1..])),
        None => Some((text, &[])),
    }
}
