ghost use Rattle.std.specs.Prelude.{Bool, Ok};
ghost use Rattle.command_words.specs.Command.{IsCommand, command_of};
ghost use Rattle.command_stages.specs.Serve.{IsRun, Run};
ghost use Rattle.command_answers.specs.Ends.{Answers};
ghost use Rattle.command_meaning.specs.Means.{PutsMeaning};

use guard_atoms::members_act_alike;

/// What the text of a command shows, where it is put whole. This is a law; it does nothing.
pub fn texts_show()
    ensures { (run : Run) (passes : Bool) → IsRun Answers (IsCommand run.words) run (Ok passes)
        → PutsMeaning (command_of run.words) run passes }
{
    members_act_alike();
}
