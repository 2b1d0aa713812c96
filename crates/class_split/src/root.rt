ghost use Rattle.std.specs.Prelude.{◌≤◌, ◌≡◌, length, IfOk, All};
ghost use Rattle.linear_refuter.specs.Sum.{IsShaped};
ghost use Rattle.class_split.specs.inside.Region.{IsBoxRegion};
ghost use Rattle.class_split.specs.inside.Node.{IsRoot};

use crate::found::found_in;
use crate::node::Node;
use crate::region::{Region, restricted};
use lin_form::{Atom, Bounds, Literal};
use linear_refuter::{Answer, Part, Relaxation, Tree, decide};
use std::alloc::{AllocError, Global};

/// The node of all vectors of a box, or why there is none.
#[derive(Drop)]
pub(crate) enum Root {
    Start(Node),
    Refuted(Tree),
}

pub(crate) fn root_of(
    alloc: Global,
    atoms: &[Atom],
    bounds: &Bounds,
    assumed: &[Literal],
    relaxation: &mut Relaxation,
) -> Result<Root, AllocError>
    requires few { length assumed.now ≤ 32 }
    requires shaped { IsShaped assumed.now bounds.now }
    requires atoms { All (λ atom. length atom.coefficients ≡ length bounds.now) atoms.now }
    ensures { IfOk result (λ r. IsRoot atoms.now bounds.now assumed.now r) }
{
    let region = box_region(alloc, bounds, assumed)?;
    match found_in(alloc, &region, relaxation) {
        Some(found) => Ok(Root::Start(Node {
            region,
            vector: found.vector,
            is_least: found.is_least,
            pattern: [false; 128],
        })),
        None => match decide(alloc, assumed, bounds)? {
            Answer::Refuted(tree) => Ok(Root::Refuted(tree)),
            Answer::Point(_) => unreachable!(),
        },
    }
}

/// The vectors of the bounds on which each assumed literal is as it says.
fn box_region(alloc: Global, bounds: &Bounds, assumed: &[Literal]) -> Result<Region, AllocError>
    requires shaped { IsShaped assumed.now bounds.now }
    ensures { IfOk result (λ r. IsBoxRegion bounds.now assumed.now r) }
{
    let mut region = Region {
        part: Part::of(bounds),
        kept: Vec::new(alloc),
    };
    for index in 0..assumed.len() {
        let literal = &assumed[index];
        region = restricted(alloc, &region, &literal.atom, literal.holds)?;
    }
    Ok(region)
}
