ghost use Rattle.std.specs.Prelude.{◌<◌, All, IfOk};
ghost use Rattle.test_world.specs.Count.{greatest_count};

mod shelves;
mod sinks;

use std::alloc::{AllocError, Global};

// A list of one bad number, where 0 stands for none, since calls count from 1.
fn only(alloc: Global, number: u64) -> Result<Vec<u64>, AllocError>
    requires { number < greatest_count }
    ensures { IfOk result (λ bad. All (λ n. n < greatest_count) bad.items) }
{
    [number].to_vec(alloc)
}
