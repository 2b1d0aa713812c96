ghost use Rattle.command_stages.specs.Finish.{Finishes};

use crate::print::Print;
use crate::stop::{Departure, Stop};
use test_world::Sink;

/// Puts what a command came to, and hands all of it on. Where it came to nothing, nothing is put.
pub fn finish<P: Print + Drop, K: Sink>(made: Result<P, Stop>, out: &mut K) -> Result<bool, Stop>
    ensures { Finishes P.printed made (K.state out.old) (K.state out.new) result }
{
    let mut text = match made {
        Ok(text) => text,
        Err(stop) => return Err(stop),
    };
    match text.put(out) {
        Ok(()) => {}
        Err(_) => return Err(Stop::Departed(Departure::WriteFault)),
    }
    match out.flush() {
        Ok(()) => Ok(text.passes()),
        Err(_) => Err(Stop::Departed(Departure::WriteFault)),
    }
}
