ghost use Rattle.std.specs.Prelude.{◌≡◌, ◌+◌, ◌<◌, ◌≤◌, ◌==◌, [], ◌∷◌, length, not, MatchOption};
ghost use Rattle.std.specs.List.{prefix_len};
ghost use Rattle.query_tokens.specs.Lines.{lines_of, without_return};

/// The first line of a text, without its end, and the text behind that end. `None` where the line ends
/// with the text.
pub fn split_line(text: &[u8]) -> (&[u8], Option<&[u8]>)
    ensures lines { MatchOption result.1 (lines_of text.now ≡ result.0.now ∷ [])
        (λ rest. lines_of text.now ≡ result.0.now ∷ lines_of rest.now) }
    ensures shorter { MatchOption result.1 (result.0.now ≡ text.now)
        (λ rest. length rest.now + length result.0.now < length text.now) }
    ensures within { length result.0.now ≤ length text.now }
{
    let len = bytes_to_line_feed(text);
    if len < text.len() {
        (without_return(&text[..len]), Some(&text[len + 1..]))
    } else {
        (text, None)
    }
}

fn bytes_to_line_feed(text: &[u8]) -> usize
    ensures { result ≡ prefix_len (λ b. not (b == 10)) text.now }
{
    text.iter().take_while(|b| **b != b'\n').count()
}

fn without_return(line: &[u8]) -> &[u8]
    ensures value { result.now ≡ without_return line.now }
    ensures shorter { length result.now ≤ length line.now }
{
    if line.len() > 0 && line[line.len() - 1] == b'\r' {
        &line[..line.len() - 1]
    } else {
        line
    }
}
