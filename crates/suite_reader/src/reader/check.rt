//! The checks of a line, in their order.
ghost use Rattle.std.specs.Prelude.{◌≡◌, ◌≤◌, length, map, take};
ghost use Rattle.suite_reading.specs.Items.{SuiteLine, InputLine, OutputLine, BoundLine, StatesLine, ClassLine, CoverLine, MarkLine, TestLine, StepLine, EndLine};
ghost use Rattle.suite_reading.specs.Checks.{checks, first_of, is_taken};
ghost use Rattle.suite_reading.specs.inside.Kept.{Kept};

use super::Reader;
use crate::names::{is_input, is_output, is_reserved, spells_name};
use crate::numbers::{
    are_letters, are_within, is_between, is_count, is_in_box, is_up_to, is_within,
};
use lin_form::Name;
use suite_reading::{Cause, LineKind, SuiteKind, SuiteWhich, may_stand};

/// The greatest number of a class or of an input's range, in absolute value.
const MOST_IN_RANGES: u64 = 1_000_000;

/// The greatest other number, in absolute value.
const MOST: u64 = 1_000_000_000_000;

impl Reader {
    fn is_taken(&self, name: &Name) -> bool
        ensures { result ≡ is_taken self.now name.now }
    {
        is_input(self.inputs.as_slice(), name) || is_output(self.outputs.as_slice(), name)
    }

    pub(super) fn check_suite(&self) -> Option<Cause>
        ensures { result ≡ first_of (checks self.now SuiteLine) }
    {
        if !may_stand(LineKind::Suite, self.place) {
            return Some(Cause::Fault(SuiteKind::Form));
        }
        None
    }

    pub(super) fn check_input(&self, name: &[u8], low: i64, high: i64) -> Option<Cause>
        ensures { result ≡ first_of (checks self.now (InputLine name.now low high)) }
    {
        if !may_stand(LineKind::Input, self.place) {
            return Some(Cause::Fault(SuiteKind::Form));
        }
        if !spells_name(name) {
            return Some(Cause::Fault(SuiteKind::Form));
        }
        if name.len() > 32 {
            return Some(Cause::Limit(SuiteWhich::NameBytes));
        }
        if !is_within(MOST_IN_RANGES, low) {
            return Some(Cause::Limit(SuiteWhich::Literal));
        }
        if !is_within(MOST_IN_RANGES, high) {
            return Some(Cause::Limit(SuiteWhich::Literal));
        }
        if self.inputs.len() >= 6 {
            return Some(Cause::Limit(SuiteWhich::Inputs));
        }
        let name = Name::from_bytes(name);
        if is_reserved(&name) {
            return Some(Cause::Fault(SuiteKind::Fact));
        }
        if self.is_taken(&name) {
            return Some(Cause::Fault(SuiteKind::Fact));
        }
        if low > high {
            return Some(Cause::Fault(SuiteKind::Fact));
        }
        None
    }

    pub(super) fn check_output(&self, name: &[u8]) -> Option<Cause>
        ensures { result ≡ first_of (checks self.now (OutputLine name.now)) }
    {
        if !may_stand(LineKind::Output, self.place) {
            return Some(Cause::Fault(SuiteKind::Form));
        }
        if !spells_name(name) {
            return Some(Cause::Fault(SuiteKind::Form));
        }
        if name.len() > 32 {
            return Some(Cause::Limit(SuiteWhich::NameBytes));
        }
        if self.outputs.len() >= 8 {
            return Some(Cause::Limit(SuiteWhich::Outputs));
        }
        let name = Name::from_bytes(name);
        if is_reserved(&name) {
            return Some(Cause::Fault(SuiteKind::Fact));
        }
        if self.is_taken(&name) {
            return Some(Cause::Fault(SuiteKind::Fact));
        }
        None
    }

    pub(super) fn check_bound(&self, m: i64) -> Option<Cause>
        ensures { result ≡ first_of (checks self.now (BoundLine m)) }
    {
        if !may_stand(LineKind::Bound, self.place) {
            return Some(Cause::Fault(SuiteKind::Form));
        }
        if !is_within(MOST, m) {
            return Some(Cause::Limit(SuiteWhich::Literal));
        }
        if !is_between(1, 1024, m) {
            return Some(Cause::Fault(SuiteKind::Fact));
        }
        None
    }

    pub(super) fn check_states(&self, n: i64) -> Option<Cause>
        ensures { result ≡ first_of (checks self.now (StatesLine n)) }
    {
        if !may_stand(LineKind::States, self.place) {
            return Some(Cause::Fault(SuiteKind::Form));
        }
        if !is_within(MOST, n) {
            return Some(Cause::Limit(SuiteWhich::Literal));
        }
        if !is_up_to(self.bound, n) {
            return Some(Cause::Fault(SuiteKind::Fact));
        }
        None
    }

    pub(super) fn check_class(&self, numbers: &[i64]) -> Option<Cause>
        ensures { result ≡ first_of (checks self.now (ClassLine numbers.now)) }
    {
        if !may_stand(LineKind::Class, self.place) {
            return Some(Cause::Fault(SuiteKind::Form));
        }
        if numbers.len() != self.inputs.len() {
            return Some(Cause::Fault(SuiteKind::Form));
        }
        if !are_within(MOST_IN_RANGES, numbers) {
            return Some(Cause::Limit(SuiteWhich::Literal));
        }
        if self.classes.len() >= 4096 {
            return Some(Cause::Limit(SuiteWhich::Classes));
        }
        if !is_in_box(self.inputs.as_slice(), numbers) {
            return Some(Cause::Fault(SuiteKind::Fact));
        }
        None
    }

    pub(super) fn check_cover(&self, numbers: &[i64]) -> Option<Cause>
        requires { Kept self.now }
        ensures { result ≡ first_of (checks self.now (CoverLine numbers.now)) }
    {
        if !may_stand(LineKind::Cover, self.place) {
            return Some(Cause::Fault(SuiteKind::Form));
        }
        if !are_within(MOST, numbers) {
            return Some(Cause::Limit(SuiteWhich::Literal));
        }
        if !are_letters(self.classes.len(), numbers) {
            return Some(Cause::Fault(SuiteKind::Fact));
        }
        if self.cover.len() >= self.states {
            return Some(Cause::Fault(SuiteKind::Count));
        }
        None
    }

    pub(super) fn check_mark(&self, numbers: &[i64]) -> Option<Cause>
        requires { Kept self.now }
        ensures { result ≡ first_of (checks self.now (MarkLine numbers.now)) }
    {
        if !may_stand(LineKind::Mark, self.place) {
            return Some(Cause::Fault(SuiteKind::Form));
        }
        if !are_within(MOST, numbers) {
            return Some(Cause::Limit(SuiteWhich::Literal));
        }
        if !are_letters(self.classes.len(), numbers) {
            return Some(Cause::Fault(SuiteKind::Fact));
        }
        if self.cover.len() < self.states {
            return Some(Cause::Fault(SuiteKind::Count));
        }
        None
    }

    pub(super) fn check_test(&self, numbers: &[i64]) -> Option<Cause>
        requires { Kept self.now }
        ensures { result ≡ first_of (checks self.now (TestLine numbers.now)) }
    {
        if !may_stand(LineKind::Test, self.place) {
            return Some(Cause::Fault(SuiteKind::Form));
        }
        if numbers.len() == 0 {
            return Some(Cause::Fault(SuiteKind::Form));
        }
        if !are_within(MOST, numbers) {
            return Some(Cause::Limit(SuiteWhich::Literal));
        }
        if !are_letters(self.classes.len(), numbers) {
            return Some(Cause::Fault(SuiteKind::Fact));
        }
        None
    }

    /// The checks of a step but the last, which the store of tests makes.
    pub(super) fn check_step(&self, vector: &[i64], reply: &[i64]) -> Option<Cause>
        requires { Kept self.now }
        ensures { result ≡ first_of (take 4 (checks self.now (StepLine vector.now reply.now))) }
    {
        if !may_stand(LineKind::Step, self.place) {
            return Some(Cause::Fault(SuiteKind::Form));
        }
        if vector.len() != self.inputs.len() {
            return Some(Cause::Fault(SuiteKind::Form));
        }
        if reply.len() != self.outputs.len() {
            return Some(Cause::Fault(SuiteKind::Form));
        }
        if !are_within(MOST, vector) {
            return Some(Cause::Limit(SuiteWhich::Literal));
        }
        if !are_within(MOST, reply) {
            return Some(Cause::Limit(SuiteWhich::Literal));
        }
        let letter = self.letters[self.store.steps()];
        if vector != self.classes[letter as usize].as_slice() {
            return Some(Cause::Fault(SuiteKind::Vector));
        }
        None
    }

    pub(super) fn check_end(&self, count: i64) -> Option<Cause>
        ensures { result ≡ first_of (checks self.now (EndLine count)) }
    {
        if !may_stand(LineKind::End, self.place) {
            return Some(Cause::Fault(SuiteKind::Form));
        }
        if !is_within(MOST, count) {
            return Some(Cause::Limit(SuiteWhich::Literal));
        }
        if !is_count(self.store.tests(), count) {
            return Some(Cause::Fault(SuiteKind::Count));
        }
        None
    }
}
