use crate::Part;
use crate::hint::round;
use crate::implication::sum_ends;
use lin_form::Literal;
use std::num::{nearest_i64_to_f64, saturating_f64_to_i64};

/// How many places a column has: one for each literal that is looked at, and one for each variable.
const PLACES: usize = 32;
/// How many literals are looked at.
const LOOKED_AT: usize = 26;
/// The largest coefficient of a direction.
const MOST: i64 = 1_000_000;

/// Sums of the variables in which the vectors of a part on which literals are as they say lie close together.
///
/// They are the rows of an integer matrix whose inverse is whole as well: its columns are short where each literal's
/// sum counts by the part of its width (Lenstra, Lenstra and Lovasz 1982). Nothing follows from them.
#[derive(Drop)]
pub(crate) struct Lattice {
    columns: [f64; 192],
    rows: [i64; 36],
    width: usize,
}

impl Lattice {
    pub(crate) fn none() -> Lattice {
        Lattice {
            columns: [0.0; 192],
            rows: [0; 36],
            width: 0,
        }
    }

    /// Sets the directions for these literals on a part.
    pub(crate) fn set(&mut self, literals: &[Literal], part: &Part) {
        self.start(literals, part);
        let mut at = 1;
        for _turn in 0..400 {
            if at < self.width {
                self.shorten(at);
                at = self.next(at);
            }
        }
        self.turn();
    }

    /// Turns each direction whose first coefficient other than 0 is below 0.
    fn turn(&mut self) {
        for direction in 0..6 {
            let mut first = 0;
            for variable in 0..6 {
                if first == 0 {
                    first = self.coefficient(direction, variable);
                }
            }
            if first < 0 {
                for variable in 0..6 {
                    let turned = self.coefficient(direction, variable).wrapping_neg();
                    self.rows[direction % 6 * 6 + variable % 6] = turned;
                }
            }
        }
    }

    /// The coefficient of a variable in a direction.
    pub(crate) fn coefficient(&self, direction: usize, variable: usize) -> i64 {
        self.rows[direction % 6 * 6 + variable % 6]
    }

    fn place(&self, column: usize, place: usize) -> f64 {
        self.columns[column % 6 * PLACES + place % PLACES]
    }

    fn start(&mut self, literals: &[Literal], part: &Part) {
        self.columns = [0.0; 192];
        self.rows = [0; 36];
        self.width = part.inputs();
        for (variable, range) in part.as_slice().iter().enumerate() {
            let width = nearest_i64_to_f64(range.1.wrapping_sub(range.0)) + 0.25;
            self.columns[variable % 6 * PLACES + (variable % 6 + LOOKED_AT)] = 1.0 / width;
            self.rows[variable % 6 * 6 + variable % 6] = 1;
        }
        for (index, literal) in literals.iter().enumerate() {
            if index < LOOKED_AT {
                self.set_place(index, literal, literals, part);
            }
        }
    }

    fn set_place(&mut self, index: usize, literal: &Literal, literals: &[Literal], part: &Part) {
        let coefficients = literal.atom.coefficients.as_slice();
        if coefficients.len() != part.inputs() {
            return;
        }
        let ends = sum_ends(literals, part, &literal.atom);
        let width = nearest_i64_to_f64(ends.1.wrapping_sub(ends.0)) + 0.25;
        for (variable, coefficient) in coefficients.iter().enumerate() {
            self.columns[variable % 6 * PLACES + index % LOOKED_AT] = nearest_i64_to_f64(
                *coefficient,
            ) / width;
        }
    }

    /// The part of a column that stands at right angles to those before `first`, times another column's, by itself.
    fn share(&self, column: usize, first: usize) -> (f64, f64) {
        let mut bases = [0.0; 192];
        for base in 0..6 {
            if base <= first {
                self.stand(base, &mut bases);
            }
        }
        let mut product = 0.0;
        let mut square = 0.0;
        for place in 0..PLACES {
            let own = bases[first % 6 * PLACES + place % PLACES];
            product = product + self.place(column, place) * own;
            square = square + own * own;
        }
        (product / square, square)
    }

    /// What is left of a column without its shares of the bases before.
    fn stand(&self, column: usize, bases: &mut [f64; 192]) {
        for place in 0..PLACES {
            bases[column % 6 * PLACES + place % PLACES] = self.place(column, place);
        }
        for base in 0..column {
            let mut product = 0.0;
            let mut square = 0.0;
            for place in 0..PLACES {
                let own = bases[base % 6 * PLACES + place % PLACES];
                product = product + bases[column % 6 * PLACES + place % PLACES] * own;
                square = square + own * own;
            }
            for place in 0..PLACES {
                bases[column % 6 * PLACES + place % PLACES] = bases[column % 6 * PLACES
                    + place % PLACES]
                    - product / square * bases[base % 6 * PLACES + place % PLACES];
            }
        }
    }

    /// Takes whole multiples of the columns before from a column.
    fn shorten(&mut self, column: usize) {
        for back in 1..6 {
            if back <= column {
                let base = column.wrapping_sub(back);
                let times = round(self.share(column, base).0);
                if times > 0.5 || times < -0.5 {
                    self.take(column, base, times);
                }
            }
        }
    }

    fn take(&mut self, column: usize, base: usize, times: f64) {
        let whole = saturating_f64_to_i64(times);
        for variable in 0..6 {
            let sum = self
                .coefficient(base, variable)
                .wrapping_add(whole.wrapping_mul(self.coefficient(column, variable)));
            if sum > MOST || sum < -MOST {
                return;
            }
        }
        for place in 0..PLACES {
            self.columns[column % 6 * PLACES + place % PLACES] = self.place(column, place)
                - times * self.place(base, place);
        }
        for variable in 0..6 {
            let sum = self
                .coefficient(base, variable)
                .wrapping_add(whole.wrapping_mul(self.coefficient(column, variable)));
            self.rows[base % 6 * 6 + variable % 6] = sum;
        }
    }

    /// The column to go on with, where two neighbours change places if that makes the first shorter.
    fn next(&mut self, column: usize) -> usize {
        let before = column.wrapping_sub(1);
        let (share, square) = self.share(column, before);
        let own = self.share(column, column).1;
        if own >= (0.99 - share * share) * square {
            return column.wrapping_add(1);
        }
        for place in 0..PLACES {
            let one = self.place(column, place);
            self.columns[column % 6 * PLACES + place % PLACES] = self.place(before, place);
            self.columns[before % 6 * PLACES + place % PLACES] = one;
        }
        for variable in 0..6 {
            let one = self.coefficient(column, variable);
            self.rows[column % 6 * 6 + variable % 6] = self.coefficient(before, variable);
            self.rows[before % 6 * 6 + variable % 6] = one;
        }
        if column > 1 { before } else { 1 }
    }
}
