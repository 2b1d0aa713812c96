//! Laws of reading a suite's text.
ghost use Rattle.std.specs.Prelude.{◌≡◌, ℕ, List};
ghost use Rattle.subject.specs.Suite.{SuiteParts};
ghost use Rattle.suite_model.specs.Text.{suite_text};
ghost use Rattle.suite_reading.specs.Printable.{IsPrintable};
ghost use Rattle.suite_reading.specs.Reading.{IsDecided, ReadsSuite};

/// A text that is read as a suite is the suite's text, byte for byte.
pub fn text_read_is_printed()
    ensures { (text : List ℕ) (s : SuiteParts) → ReadsSuite text s → text ≡ suite_text s }
{}

/// A text is read as one suite at most or refused at one line for one cause, and not both.
pub fn reading_is_one()
    ensures { (text : List ℕ) → IsDecided text }
{}

/// The text of a printable suite is read as that suite.
pub fn printed_is_read()
    ensures { (s : SuiteParts) → IsPrintable s → ReadsSuite (suite_text s) s }
{}
