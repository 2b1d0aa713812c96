ghost use Rattle.std.specs.Prelude.{◌≡◌, ◌<◌, IfOk, Some};
ghost use Rattle.impl_table.specs.Fitting.{first_difference};
ghost use Rattle.subject.specs.Domain.{IsFitting};
ghost use Rattle.command_stages.specs.Stage.{Makes};
ghost use Rattle.run_stages.specs.Implementations.{signature_of};
ghost use Rattle.run_stages.specs.Stages.{FitsOver, place_of};

use crate::implementation::Implementation;
use command_stages::{Refusal, SignaturePlace, Stop};
use impl_table::{Unfit, fits};
use lin_form::Signature;

fn place(model: &Signature, other: &Signature, unfit: Unfit) -> SignaturePlace
    requires { first_difference model.now other.now ≡ Some unfit }
    ensures { result ≡ place_of unfit }
{
    match unfit {
        Unfit::Inputs => SignaturePlace::Inputs,
        Unfit::Input(number) => SignaturePlace::Input(number + 1),
        Unfit::Outputs => SignaturePlace::Outputs,
        Unfit::Output(number) => SignaturePlace::Output(number + 1),
    }
}

/// Whether the implementation, which the word with this number names, fits a model's signature. It takes no memory.
pub fn fits_over(
    name: usize,
    model: &Signature,
    implementation: &Implementation,
) -> Result<(), Stop>
    ensures made { Makes (FitsOver name model.now (signature_of implementation.now)) result }
    ensures fits { IfOk result (λ u. IsFitting model.now (signature_of implementation.now)) }
{
    let other = implementation.signature();
    match fits(model, other) {
        Ok(()) => Ok(()),
        Err(unfit) => {
            let place = place(model, other, unfit);
            Err(Stop::Refused(Refusal::Unfit { name, place }))
        }
    }
}
