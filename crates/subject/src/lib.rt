//! Plans: what a deterministic input-output system answers to every word of input vectors, and what it means that two
//! of them answer alike, that one has at most so many distinguishable states, that it lies inside a fault domain, and
//! that tests are complete for that domain (Chow 1978; Huang and Peleska).
#![tactic(auto)]

mod case;
mod cases;
mod laws;
mod plan;
mod replies;
mod shapes;
mod step;
#[cfg(test)]
mod tests;

pub use case::Case;
pub use cases::Cases;
pub use laws::{
    acting_alike, all_marks_are_own, box_lies_in_ranges, cover_is_rank, equality_of_plans,
    failure_shows_a_difference, leading_alike, model_is_inside, partition_covers_the_box,
    rank_is_least, reaching, replies_after, same_steps_act_alike, states_over_witnesses,
    tested_plan_inside_is_equal, tested_plan_is_equal, tests_are_complete, tests_decide,
    verdict_is_one, what_cannot_differ_is_the_same, witnesses_show_all_words, witnesses_stand_in,
};
pub use plan::Plan;
pub use replies::answers;
pub use shapes::{
    cover_words_are_the_rank, letters_stand_for_witnesses, suite_is_one, suites_are_answered,
    suites_are_complete, suites_decide,
};
pub use step::Step;
