//! Lines that are taken.
ghost use Rattle.std.specs.Prelude.{◌≤◌, length, Some};
ghost use Rattle.suite_reading.specs.Items.{SuiteLine, InputLine, OutputLine, BoundLine, StatesLine, ClassLine, CoverLine, MarkLine, TestLine, StepLine, EndLine};
ghost use Rattle.suite_reading.specs.inside.Kept.{Kept};
ghost use Rattle.suite_reader.specs.inside.Lines.{item_said, IsCut};
ghost use Rattle.suite_reader.specs.inside.Reader.{IsAnswered};

use super::Reader;
use crate::error::LineError;
use crate::line::Line;
use crate::numbers::push_letters;
use lin_form::{Input, Name, Reply, Vector};
use std::alloc::Global;
use suite_reading::{Cause, Place, SuiteKind};

/// How many words a pool may have.
const MOST_WORDS: usize = 4_294_967_295;

impl Reader {
    fn take_suite(&mut self) -> Result<(), LineError>
        ensures { IsAnswered self.old (Some SuiteLine) self.new result }
    {
        if let Some(cause) = self.check_suite() {
            return Err(LineError::Refused(cause));
        }
        self.place = Place::Suite;
        Ok(())
    }

    fn take_input(&mut self, name: &[u8], low: i64, high: i64) -> Result<(), LineError>
        ensures { IsAnswered self.old (Some (InputLine name.now low high)) self.new result }
    {
        if let Some(cause) = self.check_input(name, low, high) {
            return Err(LineError::Refused(cause));
        }
        let input = Input {
            name: Name::from_bytes(name),
            lo: low,
            hi: high,
        };
        match self.inputs.push(input) {
            Ok(()) => {}
            Err(_) => return Err(LineError::Memory),
        }
        self.place = Place::Inputs;
        Ok(())
    }

    fn take_output(&mut self, name: &[u8]) -> Result<(), LineError>
        ensures { IsAnswered self.old (Some (OutputLine name.now)) self.new result }
    {
        if let Some(cause) = self.check_output(name) {
            return Err(LineError::Refused(cause));
        }
        match self.outputs.push(Name::from_bytes(name)) {
            Ok(()) => {}
            Err(_) => return Err(LineError::Memory),
        }
        self.place = Place::Outputs;
        Ok(())
    }

    fn take_bound(&mut self, m: i64) -> Result<(), LineError>
        ensures { IsAnswered self.old (Some (BoundLine m)) self.new result }
    {
        if let Some(cause) = self.check_bound(m) {
            return Err(LineError::Refused(cause));
        }
        self.bound = m as usize;
        self.place = Place::Bound;
        Ok(())
    }

    fn take_states(&mut self, n: i64) -> Result<(), LineError>
        ensures { IsAnswered self.old (Some (StatesLine n)) self.new result }
    {
        if let Some(cause) = self.check_states(n) {
            return Err(LineError::Refused(cause));
        }
        self.states = n as usize;
        self.place = Place::States;
        Ok(())
    }

    fn take_class(&mut self, alloc: Global, numbers: &[i64]) -> Result<(), LineError>
        requires { Kept self.old }
        ensures { IsAnswered self.old (Some (ClassLine numbers.now)) self.new result }
    {
        if let Some(cause) = self.check_class(numbers) {
            return Err(LineError::Refused(cause));
        }
        match self.classes.push(Vector::from_slice(alloc, numbers)) {
            Ok(()) => {}
            Err(_) => return Err(LineError::Memory),
        }
        self.place = Place::Classes;
        Ok(())
    }

    fn take_cover(&mut self, alloc: Global, numbers: &[i64]) -> Result<(), LineError>
        requires { Kept self.old }
        ensures { IsAnswered self.old (Some (CoverLine numbers.now)) self.new result }
    {
        if let Some(cause) = self.check_cover(numbers) {
            return Err(LineError::Refused(cause));
        }
        let mut word = Vec::new(alloc);
        if push_letters(numbers, &mut word).is_err() {
            return Err(LineError::Memory);
        }
        match self.cover.push(word) {
            Ok(()) => {}
            Err(_) => return Err(LineError::Memory),
        }
        self.place = Place::Cover;
        Ok(())
    }

    fn take_mark(&mut self, alloc: Global, numbers: &[i64]) -> Result<(), LineError>
        requires { Kept self.old }
        ensures { IsAnswered self.old (Some (MarkLine numbers.now)) self.new result }
    {
        if let Some(cause) = self.check_mark(numbers) {
            return Err(LineError::Refused(cause));
        }
        let mut word = Vec::new(alloc);
        if push_letters(numbers, &mut word).is_err() {
            return Err(LineError::Memory);
        }
        match self.marks.push(word) {
            Ok(()) => {}
            Err(_) => return Err(LineError::Memory),
        }
        self.place = Place::Marks;
        Ok(())
    }

    fn take_test(&mut self, numbers: &[i64]) -> Result<(), LineError>
        requires { Kept self.old }
        ensures { IsAnswered self.old (Some (TestLine numbers.now)) self.new result }
    {
        if let Some(cause) = self.check_test(numbers) {
            return Err(LineError::Refused(cause));
        }
        if push_letters(numbers, &mut self.letters).is_err() {
            return Err(LineError::Memory);
        }
        self.place = Place::Steps;
        Ok(())
    }

    fn take_step(&mut self, vector: &[i64], reply: &[i64]) -> Result<(), LineError>
        requires { Kept self.old }
        ensures { IsAnswered self.old (Some (StepLine vector.now reply.now)) self.new result }
    {
        if let Some(cause) = self.check_step(vector, reply) {
            return Err(LineError::Refused(cause));
        }
        if self.store.words() >= MOST_WORDS || self.store.reserve().is_err() {
            return Err(LineError::Memory);
        }
        let letter = self.letters[self.store.steps()];
        match self.store.step(letter, Reply::from_slice(reply)) {
            Ok(true) => {}
            Ok(false) => return Err(LineError::Refused(Cause::Fault(SuiteKind::Conflict))),
            Err(_) => return Err(LineError::Memory),
        }
        if self.store.steps() < self.letters.len() {
            return Ok(());
        }
        self.store.finish();
        self.letters.clear();
        self.place = Place::Tests;
        Ok(())
    }

    fn take_end(&mut self, count: i64) -> Result<(), LineError>
        ensures { IsAnswered self.old (Some (EndLine count)) self.new result }
    {
        if let Some(cause) = self.check_end(count) {
            return Err(LineError::Refused(cause));
        }
        self.place = Place::End;
        Ok(())
    }

    /// Takes what a line says, if anything, with its numbers.
    pub(crate) fn take(
        &mut self,
        alloc: Global,
        line: Option<Line>,
        numbers: &[i64],
    ) -> Result<(), LineError>
        requires kept { Kept self.old }
        requires cut { IsCut numbers.now line }
        ensures { IsAnswered self.old (item_said numbers.now line.entry) self.new result }
    {
        let Some(line) = line else {
            return Err(LineError::Refused(Cause::Fault(SuiteKind::Form)));
        };
        match line {
            Line::Suite => self.take_suite(),
            Line::Input(name, low, high) => self.take_input(name, low, high),
            Line::Output(name) => self.take_output(name),
            Line::Bound(m) => self.take_bound(m),
            Line::States(n) => self.take_states(n),
            Line::Class => self.take_class(alloc, numbers),
            Line::Cover => self.take_cover(alloc, numbers),
            Line::Mark => self.take_mark(alloc, numbers),
            Line::Test => self.take_test(numbers),
            Line::Step(count) => self.take_step(&numbers[..count], &numbers[count..]),
            Line::End(count) => self.take_end(count),
        }
    }
}
