use lin_form::Reply;

/// What running tests comes to: every reply was the expected one, or the first that was not, with its test and its step,
/// both counted from 1.
#[derive(Clone, Copy, Debug, PartialEq, Eq)]
pub enum Verdict {
    Pass,
    Fail {
        test: usize,
        step: usize,
        given: Reply,
    },
}
