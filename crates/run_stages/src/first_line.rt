ghost use Rattle.std.specs.Prelude.{◌≡◌, ◌≤◌, length};
ghost use Rattle.std.specs.List.{prefix_len};
ghost use Rattle.lin_form.specs.Name.{continues_name};
ghost use Rattle.line_tokens.specs.Spelling.{is_blank};
ghost use Rattle.run_stages.specs.FirstLine.{first_word, is_table_text, said_of};

use line_tokens::content;
use text_lines::next_line;

fn is_blank(byte: u8) -> bool
    ensures { result ≡ is_blank byte }
{
    byte == b' ' || byte == b'\t'
}

fn continues_name(byte: u8) -> bool
    ensures { result ≡ continues_name byte }
{
    byte.is_ascii_alphabetic() || byte == b'_' || byte.is_ascii_digit()
}

fn leading_blanks(bytes: &[u8]) -> usize
    ensures { result ≡ prefix_len is_blank bytes.now }
{
    bytes.iter().take_while(|byte| is_blank(**byte)).count()
}

fn blanks(bytes: &[u8]) -> usize
    ensures count { result ≡ prefix_len is_blank bytes.now }
    ensures within { result ≤ length bytes.now }
{
    leading_blanks(bytes)
}

fn name_bytes(bytes: &[u8]) -> usize
    ensures { result ≡ prefix_len continues_name bytes.now }
{
    bytes
        .iter()
        .take_while(|byte| continues_name(**byte))
        .count()
}

/// What of a line is read, from its first byte on that is no space or tab.
fn said(line: &[u8]) -> &[u8]
    ensures { result.now ≡ said_of line.now }
{
    let content = content(line);
    &content[blanks(content)..]
}

/// The letters, digits and `_` at the front.
fn first_word(said: &[u8]) -> &[u8]
    ensures { result.now ≡ first_word said.now }
{
    &said[..name_bytes(said)]
}

/// Whether a text is read as a table: the first line of it that is not blank begins with the word `table`. It takes no
/// memory.
pub fn is_table(text: &[u8]) -> bool
    ensures { result ≡ is_table_text text.now }
{
    let mut rest = text;
    'lines: while !rest.is_empty() {
        let (line, after) = next_line(rest);
        let said = said(line);
        if !said.is_empty() {
            return first_word(said) == b"table".as_slice();
        }
        rest = after;
    }
    false
}
