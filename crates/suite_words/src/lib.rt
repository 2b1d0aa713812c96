//! The words of a test suite by the W-method (Chow 1978), over letters and answers of any kind: a cover, marks and
//! tests. Each law is a function's contract; the function does nothing.
#![tactic(auto)]

ghost use Rattle.std.specs.Prelude.{◌≡◌, ℕ, ℤ, ◌<◌, List};
ghost use Rattle.suite_words.specs.Cover.{AreLetters};
ghost use Rattle.suite_words.specs.Marks.{AreMarksBy};
ghost use Rattle.suite_words.specs.Tests.{AreTests};

/// Of at least one cover word there is at most one list of marks.
pub fn one_list_of_marks()
    ensures { (f : ℕ → List ℕ → List (List ℤ)) (n c : ℕ) (xs ys : List (List ℕ)) →
        0 < n → AreMarksBy f n c xs → AreMarksBy f n c ys → xs ≡ ys }
{}

/// There is at most one list of tests.
pub fn one_list_of_tests()
    ensures { (c : ℕ) (cover marks : List (List ℕ)) (d : ℕ) (xs ys : List (List ℕ)) →
        AreTests c cover marks d xs → AreTests c cover marks d ys → xs ≡ ys }
{}

/// Two answers that are one on words of letters have the same marks.
pub fn marks_of_the_same_answers()
    ensures { (f g : ℕ → List ℕ → List (List ℤ)) (n c : ℕ) (marks : List (List ℕ)) →
        ((i : ℕ) (w : List ℕ) → i < n → AreLetters c w → f i w ≡ g i w) →
        AreMarksBy f n c marks → AreMarksBy g n c marks }
{}
