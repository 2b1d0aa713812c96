ghost use Rattle.std.specs.Prelude.{◌≡◌, ◌<◌, ◌∷◌, length, not, ◌==◌};
ghost use Rattle.std.specs.List.{prefix_len};
ghost use Rattle.text_lines.specs.Lines.{lines_of};

/// The first line of a text without its line feed, and the text after it.
pub fn next_line(text: &[u8]) -> (&[u8], &[u8])
    requires { 0 < length text.now }
    ensures line { lines_of text.now ≡ result.0.now ∷ lines_of result.1.now }
    ensures rest { length result.1.now < length text.now }
{
    let end = line_length(text);
    if end < text.len() {
        (&text[..end], &text[end + 1..])
    } else {
        (text, &[])
    }
}

fn line_length(text: &[u8]) -> usize
    ensures { result ≡ prefix_len (λ b. not (b == 10)) text.now }
{
    text.iter().take_while(|byte| **byte != b'\n').count()
}
