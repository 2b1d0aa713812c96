ghost use Rattle.std.specs.Prelude.{◌≡◌, map, string_bytes};
ghost use Rattle.test_world.specs.Sink.{Puts};
ghost use Rattle.command_stages.specs.Report.{err_line, named};

use crate::line::Line;
use crate::stop::{Source, Stop};
use crate::text::word_at;
use test_world::{Fault, Sink, put_all};

/// What each line on `err` begins with.
const LABEL: &[u8] = b"classtest: ";

fn name(words: &[String], source: Option<Source>) -> &str
    ensures { result.now ≡ named (map string_bytes words.now) source }
{
    match source {
        Some(Source::Word(number)) => word_at(words, number),
        Some(Source::Replies) => "-",
        None => "",
    }
}

/// Puts the line of a stop to `err`, as much of it as `err` takes. It takes no memory.
pub fn report<K: Sink>(words: &[String], stop: Stop, err: &mut K) -> Result<(), Fault>
    ensures { Puts (K.state err.old) (K.state err.new) (err_line (map string_bytes words.now) stop) result }
{
    let mut rest = Line::new();
    rest.set_said(stop);
    put_all(err, LABEL)?;
    put_all(err, name(words, stop.source()).as_bytes())?;
    put_all(err, rest.bytes())
}
