ghost use Rattle.std.specs.Prelude.{◌≡◌, map, string_bytes};
ghost use Rattle.std.specs.Char.{is_ascii_digit};
ghost use Rattle.std.specs.List.{list_all};
ghost use Rattle.command_words.specs.Command.{bound_of, bound_at, number_at, number_of};

fn are_digits(word: &[u8]) -> bool
    ensures { result ≡ list_all is_ascii_digit word.now }
{
    word.iter().all(|byte| byte.is_ascii_digit())
}

/// The number that 1 to 4 decimal digits write, or 0 where the word is none such.
pub fn bound_of(word: &str) -> usize
    ensures { result ≡ bound_of word.now }
{
    if word.len() == 0 || word.len() > 4 || !are_digits(word.as_bytes()) {
        return 0;
    }
    match word.parse::<u16>() {
        Ok(number) => number as usize,
        Err(_) => 0,
    }
}

/// The bound that the word with this number, counted from 0, writes.
pub fn bound_at(words: &[String], number: usize) -> usize
    ensures { result ≡ bound_at (map string_bytes words.now) number }
{
    match words.get(number) {
        Some(word) => bound_of(word.as_str()),
        None => 0,
    }
}

/// The number that 1 to 10 decimal digits write, if it is at most 4,294,967,295.
pub fn number_of(word: &str) -> Option<u32>
    ensures { result ≡ number_of word.now }
{
    if word.len() == 0 || word.len() > 10 || !are_digits(word.as_bytes()) {
        return None;
    }
    match word.parse::<u32>() {
        Ok(number) => Some(number),
        Err(_) => None,
    }
}

/// The number that the word with this number, counted from 0, writes, if it writes one.
pub fn number_at(words: &[String], number: usize) -> Option<u32>
    ensures { result ≡ number_at (map string_bytes words.now) number }
{
    match words.get(number) {
        Some(word) => number_of(word.as_str()),
        None => None,
    }
}
