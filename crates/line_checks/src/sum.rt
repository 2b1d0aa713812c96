ghost use Rattle.std.specs.Prelude.{◌≡◌, ◌≤◌, ◌<◌, ◌+◌, ◌*◌, ◌^◌, length, unsigned_abs, Some, None, IfOk, OnOk};
ghost use Rattle.line_forms.specs.Limits.{IsSmallTerm, IsSmallTest, AreSmallTerms};
ghost use Rattle.chart_model.specs.Chart.{IsFormOver};
ghost use Rattle.line_checks.specs.Answers.{Gives, HasPlace, MakesCheck};
ghost use Rattle.line_checks.specs.Sums.{term_check, sum_check, test_check, factor_of, signed, with_value};
ghost use Rattle.line_checks.specs.Sums.{variable_of_term, name_of_term, is_negative, add_term, collect, nothing};
ghost use Rattle.line_checks.specs.Sums.{form_of, comparison_of, value_form_of};
ghost use Rattle.line_checks.specs.inside.Weight.{weight};

use crate::scope::{NameFault, Scope, Variable};
use lin_form::{Comparison, Form, Name, Vector};
use line_forms::{SignedTerm, Term, TestForm};
use std::alloc::Global;

/// A sum as far as its terms are added up. Of the inputs and memories those declared count.
#[derive(Clone, Copy)]
pub struct Sum {
    pub inputs: [i64; 6],
    pub memory: [i64; 4],
    pub constant: i64,
}

fn empty_sum() -> Sum
    ensures { result ≡ nothing }
{
    Sum {
        inputs: [0; 6],
        memory: [0; 4],
        constant: 0,
    }
}

fn signed_value(negated: bool, value: u32) -> i64
    requires { value ≤ 1000000 }
    ensures value { result ≡ signed negated value }
    ensures small { unsigned_abs result ≤ 1000000 }
{
    if negated {
        0 - value as i64
    } else {
        value as i64
    }
}

/// Adds a value to the coefficient of a variable, or to the constant.
fn add(sum: &mut Sum, variable: Option<Variable>, value: i64)
    requires within { HasPlace variable }
    requires light { weight sum.old ≤ 512000000 }
    requires small { unsigned_abs value ≤ 1000000 }
    ensures value { sum.new ≡ with_value variable value sum.old }
    ensures light { weight sum.new ≤ weight sum.old + 1000000 }
{
    match variable {
        Some(Variable::Input(number)) => sum.inputs[number] += value,
        Some(Variable::Memory(number)) => sum.memory[number] += value,
        None => sum.constant += value,
    }
}

fn name_of(term: Term) -> Option<Name>
    ensures { result ≡ name_of_term term }
{
    match term {
        Term::Number(_) => None,
        Term::Scaled(_, name) => Some(name),
        Term::Named(name) => Some(name),
        Term::Multiplied(name, _) => Some(name),
    }
}

fn factor(term: Term) -> u32
    requires { IsSmallTerm term }
    ensures value { result ≡ factor_of term }
    ensures small { result ≤ 1000000 }
{
    match term {
        Term::Number(value) => value,
        Term::Scaled(value, _) => value,
        Term::Named(_) => 1,
        Term::Multiplied(_, value) => value,
    }
}

fn is_negative(subtracted: bool, negated: bool) -> bool
    ensures { result ≡ is_negative subtracted negated }
{
    if subtracted { !negated } else { negated }
}

/// What the name of a term stands for, if it has one.
fn term_variable<S: Scope>(scope: &S, term: Term) -> Result<Option<Variable>, NameFault>
    ensures found { Gives (term_check (S.names scope.now) term) (variable_of_term (S.names scope.now) term) result }
    ensures within { IfOk result HasPlace }
{
    let Some(name) = name_of(term) else {
        return Ok(None);
    };
    match scope.find(name) {
        Ok(variable) => Ok(Some(variable)),
        Err(error) => Err(error),
    }
}

fn add_term<S: Scope>(
    scope: &S,
    subtracted: bool,
    sum: &mut Sum,
    term: &SignedTerm,
) -> Result<(), NameFault>
    requires small { IsSmallTerm term.now.term }
    requires light { weight sum.old ≤ 512000000 }
    ensures check { MakesCheck (term_check (S.names scope.now) term.now.term) result }
    ensures added { OnOk result (sum.new ≡ add_term (S.names scope.now) subtracted sum.old term.now) }
    ensures light { OnOk result (weight sum.new ≤ weight sum.old + 1000000) }
{
    let value = signed_value(is_negative(subtracted, term.negated), factor(term.term));
    match term_variable(scope, term.term) {
        Ok(variable) => {
            add(sum, variable, value);
            Ok(())
        }
        Err(error) => Err(error),
    }
}

/// Adds terms to a sum, or subtracts them from it.
fn collect<S: Scope>(
    scope: &S,
    subtracted: bool,
    sum: &mut Sum,
    terms: &[SignedTerm],
) -> Result<(), NameFault>
    requires small { AreSmallTerms terms.now }
    requires light { weight sum.old + 1000000 * length terms.now ≤ 512000000 }
    ensures check { MakesCheck (sum_check (S.names scope.now) terms.now) result }
    ensures added { OnOk result (sum.new ≡ collect (S.names scope.now) subtracted sum.old terms.now) }
    ensures light { OnOk result (weight sum.new ≤ weight sum.old + 1000000 * length terms.now) }
{
    'terms: for term in terms {
        match add_term(scope, subtracted, sum, term) {
            Ok(()) => {}
            Err(error) => return Err(error),
        }
    }
    Ok(())
}

fn form(alloc: Global, width: usize, sum: Sum) -> Form
    requires { width ≤ 6 }
    ensures { result ≡ form_of width sum }
{
    Form {
        inputs: Vector::from_slice(alloc, &sum.inputs[..width]),
        memory: sum.memory,
        constant: sum.constant,
    }
}

/// The form of a comparison: the left sum minus the right sum.
pub fn comparison<S: Scope>(
    alloc: Global,
    scope: &S,
    width: usize,
    test: &TestForm,
) -> Result<Comparison, NameFault>
    requires few { width ≤ 6 }
    requires small { IsSmallTest test.now }
    ensures value { Gives (test_check (S.names scope.now) test.now)
        (comparison_of (S.names scope.now) width test.now) result }
    ensures form { IfOk result (λ c. IsFormOver width (length (S.names scope.now).memories) c.form) }
{
    let mut sum = empty_sum();
    match collect(scope, false, &mut sum, test.left.as_slice()) {
        Ok(()) => {}
        Err(fault) => return Err(fault),
    }
    match collect(scope, true, &mut sum, test.right.as_slice()) {
        Ok(()) => {}
        Err(fault) => return Err(fault),
    }
    Ok(Comparison {
        form: form(alloc, width, sum),
        relation: test.relation,
    })
}

/// The form of what an action assigns.
pub fn value_form<S: Scope>(
    alloc: Global,
    scope: &S,
    width: usize,
    terms: &[SignedTerm],
) -> Result<Form, NameFault>
    requires few { width ≤ 6 }
    requires short { length terms.now ≤ 512 }
    requires small { AreSmallTerms terms.now }
    ensures value { Gives (sum_check (S.names scope.now) terms.now)
        (value_form_of (S.names scope.now) width terms.now) result }
    ensures form { IfOk result (λ form. IsFormOver width (length (S.names scope.now).memories) form) }
{
    let mut sum = empty_sum();
    match collect(scope, false, &mut sum, terms) {
        Ok(()) => {}
        Err(fault) => return Err(fault),
    }
    Ok(form(alloc, width, sum))
}
