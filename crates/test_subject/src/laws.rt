//! What holds of verdicts. Each law is a function's contract; the function does nothing.
ghost use Rattle.std.specs.Prelude.{◌≡◌, ◌↔◌, ℤ, ◌++◌, List, length};
ghost use Rattle.std.specs.List.{All};
ghost use Rattle.subject.specs.Tests.{Answers, TestCase, Passes};
ghost use Rattle.test_subject.specs.Subject.{AnswersEach};
ghost use Rattle.test_subject.specs.Verdict.{IsVerdict, NamesDifference};
ghost use Rattle.test_subject.specs.Exchange.{replies_to};
ghost use Rattle.test_subject.specs.declared.verdict.Verdict.{Verdict};
ghost use Rattle.test_subject.specs.declared.verdict.Verdict.TheVariants.{Pass};

/// Answers with one reply for each vector have exactly one verdict on tests that expect one reply for each, which is a
/// pass exactly where they pass the tests.
pub fn verdict_on_answers()
    ensures some { (answers : Answers) (tests : List TestCase) → AnswersEach answers
        → All (λ test. length test.replies ≡ length test.word) tests → (v : Verdict) × IsVerdict answers tests v }
    ensures one { (answers : Answers) (tests : List TestCase) (v w : Verdict)
        → IsVerdict answers tests v → IsVerdict answers tests w → v ≡ w }
    ensures pass { (answers : Answers) (tests : List TestCase) (v : Verdict)
        → IsVerdict answers tests v → ((v ≡ Pass) ↔ Passes answers tests) }
{}

/// Replies that come one after another, whatever is asked, have at most one verdict.
pub fn verdict_on_replies()
    ensures { (coming left other : List (List ℤ)) (tests : List TestCase) (v w : Verdict)
        → NamesDifference tests v → coming ≡ replies_to tests v ++ left
        → NamesDifference tests w → coming ≡ replies_to tests w ++ other → v ≡ w }
{}
