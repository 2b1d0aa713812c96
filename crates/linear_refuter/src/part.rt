ghost use Rattle.std.specs.Prelude.{◌≡◌, ◌<◌, ◌≤◌, length, slice_get, slice_set, Some, IsTrue, ◌↔◌, MatchBool, ℤ, List};
ghost use Rattle.lin_form.specs.Range.{AreRanges, IsInRanges, IsRange};
ghost use Rattle.input_classes.specs.Order.{IsAtMost};
ghost use Rattle.linear_refuter.specs.Cut.{IsCut, below, above};

use crate::point::lowest;
use lin_form::{Bounds, Vector};
use std::alloc::Global;
use std::marker::Model;

/// A part of a box: one range for each of 1 to 6 variables, held in place.
#[derive(Drop)]
pub struct Part {
    ranges: [(i64, i64); 6],
    count: usize,
}

impl Model for Part {
    ghost use Rattle.std.specs.Prelude.{ℤ, ◌≡◌, ◌≤◌, List, length, take};
    ghost use Rattle.lin_form.specs.Range.{AreRanges};

    ghost Value = { List (ℤ × ℤ) };

    ghost view = { λ part. take part.count part.ranges };

    ghost invariant = { λ part. (part.count ≤ 6) × (length part.ranges ≡ 6) × AreRanges (take part.count part.ranges) };
}

impl Part {
    /// The whole box of these bounds.
    pub fn of(bounds: &Bounds) -> Part
        ensures { result ≡ bounds.now }
    {
        Part::from_slice(bounds.as_slice())
    }

    fn from_slice(list: &[(i64, i64)]) -> Part
        requires { AreRanges list.now }
        ensures { result ≡ list.now }
    {
        let mut ranges = [(0, 0); 6];
        ranges[..list.len()].copy_from_slice(list);
        Part {
            ranges,
            count: list.len(),
        }
    }

    /// The same part once more. It takes no memory.
    pub fn copy(&self) -> Part
        ensures { result ≡ self.now }
    {
        Part {
            ranges: self.ranges,
            count: self.count,
        }
    }

    /// The least vector of the part. It takes no memory.
    pub fn lowest(&self, alloc: Global) -> Vector
        ensures inside { IsInRanges self.now result }
        ensures least { (x : List ℤ) → IsInRanges self.now x → IsAtMost result x }
    {
        lowest(alloc, self)
    }

    /// The ranges in order.
    pub fn as_slice(&self) -> &[(i64, i64)]
        ensures value { result.now ≡ self.now }
        ensures ranged { AreRanges self.now }
    {
        &self.ranges[..self.count]
    }

    /// The number of ranges, from 1 to 6.
    pub fn inputs(&self) -> usize
        ensures number { result ≡ length self.now }
        ensures ranged { AreRanges self.now }
    {
        self.count
    }

    /// The least and the greatest number of a variable, counted from 0.
    pub fn range(&self, variable: usize) -> (i64, i64)
        requires { variable < length self.now }
        ensures value { slice_get self.now variable ≡ Some result }
        ensures ranged { IsRange result.0 result.1 }
    {
        self.as_slice()[variable]
    }

    /// Whether a cut leaves numbers of the variable on both sides.
    pub fn is_cut(&self, variable: usize, at: i64) -> bool
        ensures { MatchBool result (IsCut self.now variable at) (IsCut self.now variable at → ⊥) }
    {
        if variable >= self.inputs() {
            return false;
        }
        let (low, high) = self.range(variable);
        if at < low {
            return false;
        }
        if high <= at {
            return false;
        }
        true
    }

    /// The part whose numbers of the variable are at most `at`.
    pub fn below(&self, variable: usize, at: i64) -> Part
        requires { IsCut self.now variable at }
        ensures value { result ≡ below self.now variable at }
        ensures width { length result ≡ length self.now }
    {
        let (low, _) = self.range(variable);
        self.with(variable, (low, at))
    }

    /// The part whose numbers of the variable are above `at`.
    pub fn above(&self, variable: usize, at: i64) -> Part
        requires { IsCut self.now variable at }
        ensures value { result ≡ above self.now variable at }
        ensures width { length result ≡ length self.now }
    {
        let (_, high) = self.range(variable);
        self.with(variable, (at + 1, high))
    }

    fn with(&self, variable: usize, range: (i64, i64)) -> Part
        requires variable { variable < length self.now }
        requires ranged { IsRange range.0 range.1 }
        ensures { result ≡ slice_set self.now variable range }
    {
        let mut ranges = self.ranges;
        ranges[variable] = range;
        Part {
            ranges,
            count: self.count,
        }
    }

    /// Whether there is one number per range, each in its range.
    pub fn contains(&self, numbers: &[i64]) -> bool
        ensures { IsTrue result ↔ IsInRanges self.now numbers.now }
    {
        let ranges = self.as_slice();
        if ranges.len() != numbers.len() {
            return false;
        }
        for (index, (low, high)) in ranges.iter().enumerate() {
            let number = numbers[index];
            if number < *low || *high < number {
                return false;
            }
        }
        true
    }
}
