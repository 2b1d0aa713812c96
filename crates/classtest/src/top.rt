ghost use Rattle.std.specs.Prelude.{◌≡◌, Bool, Ok, map, string_bytes};
ghost use Rattle.command_stages.specs.Report.{status_of};
ghost use Rattle.command_stages.specs.Serve.{Run, IsRun, IsServed};
ghost use Rattle.command_words.specs.Command.{IsCommand, command_of};
ghost use Rattle.command_answers.specs.Ends.{Answers};
ghost use Rattle.command_meaning.specs.Means.{PutsMeaning};

use command_answers::classes::classes;
use command_answers::json::json;
use command_answers::one_answer;
use command_answers::play::play;
use command_answers::replay::replay;
use command_answers::run::run;
use command_answers::suite::suite;
use command_meaning::texts_show;
use command_stages::{Stop, finish, report};
use command_words::{Command, command_of};
use gen_stages::summary_of;
use std::alloc::Global;
use test_world::{Shelf, Sink};

fn serve<F: Shelf, K: Sink>(
    alloc: Global,
    words: &[String],
    shelf: &mut F,
    out: &mut K,
) -> Result<bool, Stop>
    ensures { let run : Run = record {
      words = map string_bytes words.now;
      shelf = F.state shelf.old;
      shelf_after = F.state shelf.new;
      out = K.state out.old;
      out_after = K.state out.new;
    } in IsRun Answers (IsCommand run.words) run result }
{
    match command_of(words) {
        None => Err(Stop::NoCommand),
        Some(Command::Play) => finish(play(alloc, words, shelf), out),
        Some(Command::Classes { cuts }) => finish(classes(alloc, words, cuts, shelf), out),
        Some(Command::Suite { bound, cuts }) => {
            finish(suite(alloc, words, bound, cuts, shelf), out)
        }
        Some(Command::Run { bound, cuts }) => finish(run(alloc, words, bound, cuts, shelf), out),
        Some(Command::Json { bound, cuts }) => finish(json(alloc, words, bound, cuts, shelf), out),
        Some(Command::Replay) => finish(replay(alloc, words, shelf), out),
        Some(Command::Gen { number }) => finish(summary_of(alloc, number), out),
    }
}

/// All that the program does: `words` are the arguments after the program's name, and the answer is its status.
///
/// 0: the whole text was put to `out`. 1: so it was, and it names a test that the implementation of `run`, `json` or `replay`
/// does not answer as expected. Otherwise one line was put to `err`, and the status is 2 for words that are no command, 3 for a text that has
/// no reading, for an implementation that does not fit and for a chart whose assumptions no vector meets, 4 for a limit
/// that is passed, a text that is too long and a bound below the number of states, 5 for a failed read or write, and 6
/// for want of memory.
pub fn classtest<F: Shelf, K: Sink>(
    alloc: Global,
    words: &[String],
    shelf: &mut F,
    out: &mut K,
    err: &mut K,
) -> u8
    ensures served { let run : Run = record {
      words = map string_bytes words.now;
      shelf = F.state shelf.old;
      shelf_after = F.state shelf.new;
      out = K.state out.old;
      out_after = K.state out.new;
    } in IsServed Answers (IsCommand run.words) (record {
      run = run;
      err = K.state err.old;
      err_after = K.state err.new;
      status = result;
    }) }
    // What the text of a command shows where the status is 0, and where it is 1.
    ensures means { let run : Run = record {
      words = map string_bytes words.now;
      shelf = F.state shelf.old;
      shelf_after = F.state shelf.new;
      out = K.state out.old;
      out_after = K.state out.new;
    } in (passes : Bool) → result ≡ status_of (Ok passes) → PutsMeaning (command_of run.words) run passes }
{
    one_answer();
    texts_show();
    match serve(alloc, words, shelf, out) {
        Ok(true) => 0,
        Ok(false) => 1,
        Err(stop) => {
            let _ = report(words, stop, err);
            stop.status()
        }
    }
}
