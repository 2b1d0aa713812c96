ghost use Rattle.std.specs.Prelude.{◌≡◌};
ghost use Rattle.test_world.specs.Sink.{Puts};
ghost use Rattle.command_stages.specs.Stage.{Printed};

use test_world::{Fault, Sink};

/// What a command comes to: a text and a status, with all memory taken.
pub trait Print {
    // The text, and whether what it tells of passes.
    ghost printed: { Self → Printed };

    /// Whether what the text tells of passes.
    fn passes(&self) -> bool
        ensures { result ≡ (printed self.now).passes };

    /// Puts the text. It takes no memory.
    fn put<K: Sink>(&mut self, out: &mut K) -> Result<(), Fault>
        ensures put { Puts (K.state out.old) (K.state out.new) (printed self.old).text result }
        ensures passes { (printed self.new).passes ≡ (printed self.old).passes };
}
