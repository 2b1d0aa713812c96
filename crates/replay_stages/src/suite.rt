ghost use Rattle.std.specs.Prelude.{◌≡◌, map, string_bytes};
ghost use Rattle.command_stages.specs.Stage.{Made};
ghost use Rattle.replay_stages.specs.Suites.{SuiteAt, stop_of_suite};

use command_stages::{Departure, Refusal, Stop, text_at};
use std::alloc::Global;
use suite_model::Suite;
use suite_reader::{SuiteError, read_suite};
use test_world::Shelf;

/// How many bytes a suite's text may have.
const MOST_BYTES: usize = 16_777_216;

/// The stop for a suite's text that is refused.
fn refused(name: usize, error: SuiteError) -> Stop
    ensures { result ≡ stop_of_suite name error }
{
    match error {
        SuiteError::Fault { line, kind } => Stop::Refused(Refusal::SuiteFault { name, line, kind }),
        SuiteError::Limit { line, which } => {
            Stop::Refused(Refusal::SuiteLimit { name, line, which })
        }
        SuiteError::Memory => Stop::Departed(Departure::NoMemory),
    }
}

/// The suite that the word with this number names.
pub fn suite_at<F: Shelf>(
    alloc: Global,
    words: &[String],
    number: usize,
    shelf: &mut F,
) -> Result<Suite, Stop>
    ensures { Made (SuiteAt number) (map string_bytes words.now) (F.state shelf.old) (F.state shelf.new) result }
{
    let text = match text_at(alloc, words, number, MOST_BYTES, shelf) {
        Ok(text) => text,
        Err(stop) => return Err(stop),
    };
    match read_suite(alloc, text.bytes()) {
        Ok(suite) => Ok(suite),
        Err(error) => Err(refused(number, error)),
    }
}
