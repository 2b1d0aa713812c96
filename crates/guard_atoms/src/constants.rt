ghost use Rattle.std.specs.Prelude.{◌≡◌, ◌≤◌, ◌+◌, ◌*◌, ◌+ℤ◌, ◌++◌, flat_map, length, map, unsigned_abs, IfOk, OnOk};
ghost use Rattle.std.specs.List.{All};
ghost use Rattle.lin_form.specs.Form.{size_of, sum_of_products};
ghost use Rattle.lin_form.specs.Range.{AreWithin};
ghost use Rattle.chart_model.specs.Chart.{IsMemory};
ghost use Rattle.guard_atoms.specs.Atoms.{valuations};
ghost use Rattle.guard_atoms.specs.inside.Adding.{sums_from};

use chart_model::Memory;
use std::alloc::{AllocError, Global};

/// The sums of a constant and the memories' values times their coefficients, for all values of the memories whose
/// coefficients are not 0, low values first.
pub(crate) fn constants_of(
    alloc: Global,
    coefficients: &[i64],
    memories: &[Memory],
    constant: i64,
) -> Result<Vec<i64>, AllocError>
    requires each { length memories.now ≤ length coefficients.now }
    requires ranges { All IsMemory memories.now }
    requires small { unsigned_abs constant + 1000 * size_of coefficients.now ≤ 901000000000 }
    ensures constants { IfOk result (λ constants. constants.items
        ≡ map (λ values. sum_of_products coefficients.now values +ℤ constant)
        (valuations coefficients.now memories.now)) }
    ensures small { IfOk result (λ constants. AreWithin 901000000000 constants.items) }
{
    let mut constants = Vec::new(alloc);
    constants.push(constant)?;
    for (index, memory) in memories.iter().enumerate() {
        let coefficient = coefficients[index];
        if coefficient != 0 {
            constants = with_values(alloc, constants.as_slice(), coefficient, memory)?;
        }
    }
    Ok(constants)
}

/// Each number plus each of the memory's values times its coefficient.
fn with_values(
    alloc: Global,
    constants: &[i64],
    coefficient: i64,
    memory: &Memory,
) -> Result<Vec<i64>, AllocError>
    requires memory { IsMemory memory.now }
    requires small { All (λ constant. unsigned_abs constant + 1000 * unsigned_abs coefficient ≤ 901000000000)
        constants.now }
    ensures { IfOk result (λ sums. sums.items ≡ flat_map (sums_from coefficient memory.now) constants.now) }
{
    let mut sums = Vec::new(alloc);
    for constant in constants {
        add_sums(*constant, coefficient, memory, &mut sums)?;
    }
    Ok(sums)
}

/// Puts a number plus each of the memory's values times its coefficient behind others.
fn add_sums(
    constant: i64,
    coefficient: i64,
    memory: &Memory,
    sums: &mut Vec<i64>,
) -> Result<(), AllocError>
    requires memory { IsMemory memory.now }
    requires small { unsigned_abs constant + 1000 * unsigned_abs coefficient ≤ 901000000000 }
    ensures { OnOk result (sums.new.items ≡ sums.old.items ++ sums_from coefficient memory.now constant) }
{
    for value in memory.lo..memory.hi + 1 {
        sums.push(constant + coefficient * value)?;
    }
    Ok(())
}
