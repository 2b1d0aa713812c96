//! The replies of a suite, of which most are the same.
ghost use Rattle.std.specs.Prelude.{◌≡◌, ◌<◌, [], length, map, slice_index_or};
ghost use Rattle.std.specs.List.{All};

use lin_form::Reply;
use std::marker::Model;

/// Replies in a row. Where they are numbered, a reply takes 4 bytes in the row, and each different one stands once beside
/// it; else a reply takes 72 bytes.
#[derive(Drop)]
pub struct Replies {
    kinds: Vec<Reply>,
    numbers: Option<Vec<u32>>,
}

impl Model for Replies {
    ghost use Rattle.std.specs.Prelude.{ℤ, List, option_map};
    ghost use Rattle.suite_model.specs.Replies.{in_full, AreNumbers};

    ghost Value = { List (List ℤ) };

    ghost view = { λ r. in_full r.kinds.items (option_map (λ v. v.items) r.numbers) };

    ghost invariant = { λ r. AreNumbers r.kinds.items (option_map (λ v. v.items) r.numbers) };
}

impl Replies {
    /// Each reply by itself. It takes no memory.
    pub fn each(replies: Vec<Reply>) -> Replies
        ensures { result ≡ replies.items }
    {
        Replies {
            kinds: replies,
            numbers: None,
        }
    }

    /// The replies of `kinds` with these numbers. It takes no memory.
    pub fn numbered(kinds: Vec<Reply>, numbers: Vec<u32>) -> Replies
        requires { All (λ n. n < length kinds.items) numbers.items }
        ensures { result ≡ map (λ n. slice_index_or kinds.items n []) numbers.items }
    {
        Replies {
            kinds,
            numbers: Some(numbers),
        }
    }

    /// The reply at a place.
    pub fn at(&self, place: usize) -> &Reply
        requires { place < length self.now }
        ensures { result.now ≡ slice_index_or self.now place result.now }
    {
        match &self.numbers {
            None => &self.kinds[place],
            Some(numbers) => &self.kinds[numbers[place] as usize],
        }
    }
}
