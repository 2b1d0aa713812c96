ghost use Rattle.std.specs.Prelude.{◌≡◌, not, ◌==◌};
ghost use Rattle.std.specs.List.{prefix_len};
ghost use Rattle.line_tokens.specs.Lines.{without_return, without_comment, content_of};

fn strip_return(line: &[u8]) -> &[u8]
    ensures { result.now ≡ without_return line.now }
{
    if line.len() > 0 && line[line.len() - 1] == b'\r' {
        &line[..line.len() - 1]
    } else {
        line
    }
}

fn comment_start(line: &[u8]) -> usize
    ensures { result ≡ prefix_len (λ b. not (b == 35)) line.now }
{
    line.iter().take_while(|byte| **byte != b'#').count()
}

fn strip_comment(line: &[u8]) -> &[u8]
    ensures { result.now ≡ without_comment line.now }
{
    &line[..comment_start(line)]
}

/// What of a line is read: without a carriage return at its end, and without its comment.
pub fn content(line: &[u8]) -> &[u8]
    ensures { result.now ≡ content_of line.now }
{
    strip_comment(strip_return(line))
}
