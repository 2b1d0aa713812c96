//! Suites at the limits of states, steps and configurations.
ghost use Rattle.std.specs.Prelude.{◌<◌, length};

use super::suites::{has_test, made, suite_of};
use super::{ALARM, ONE, RING_OF_5};
use std::alloc::{AllocError, Global};
use std::test::Fail;
use suite_making::MakeError;
use suite_model::{Scratch, Suite};

#[test]
fn suites_that_are_refused(rt: HostRuntime) -> Result<(), Fail> {
    let below = suite_of(&rt, rt.alloc(), ALARM, 1)?;
    assert!(rt; matches!(below, Err(MakeError::BoundBelow { states: 2 })));
    // The product of steps is 23,914,830.
    let long = suite_of(&rt, rt.alloc(), ALARM, 13)?;
    assert!(rt; matches!(long, Err(MakeError::TooManySteps)));
    for bound in [1, 1_024] {
        assert!(rt; bound <= 1024);
        let wide = suite_of(&rt, rt.alloc(), RING_OF_5, bound)?;
        assert!(rt; matches!(wide, Err(MakeError::TooManyConfigurations)));
    }
    Ok(())
}

// The product of steps is 7,440,160. There are 2 * 3^10 tests from the start, of 12 letters, and 3^11 from the other
// state, of 13 letters.
#[test]
fn the_greatest_bound_of_an_alarm(rt: HostRuntime) -> Result<(), Fail> {
    let suite = made(&rt, rt.alloc(), ALARM, 12)?;
    assert_eq!(rt; suite.tests(), 295_245);
    assert_eq!(rt; suite.longest(), 13);
    Ok(())
}

/// Whether the first test has so many letters, each the first one, with the reply 5.
fn is_of_one_letter(alloc: Global, suite: &Suite, count: usize) -> Result<bool, AllocError>
    requires { 0 < length suite.now.tests }
{
    let mut scratch = Scratch::for_suite(alloc, suite)?;
    let letters = vec![in alloc; 0; count]?;
    let replies = vec![in alloc; [5].as_slice(); count]?;
    Ok(has_test(
        suite,
        0,
        &mut scratch,
        letters.as_slice(),
        replies.as_slice(),
    ))
}

#[test]
fn one_state_and_the_greatest_bound(rt: HostRuntime) -> Result<(), Fail> {
    let suite = made(&rt, rt.alloc(), ONE, 1_024)?;
    assert_eq!(rt; suite.states(), 1);
    assert_eq!(rt; suite.tests(), 1);
    assert!(rt; is_of_one_letter(rt.alloc(), &suite, 1_024)?);
    Ok(())
}
