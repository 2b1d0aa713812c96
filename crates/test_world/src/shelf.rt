//! Shelves: where named texts are read from.
ghost use Rattle.std.specs.Prelude.{◌≡◌, ◌<◌, ◌≤◌, [], ◌∷◌, length, take, OnOk, OnErr, IfOk, IsOk};
ghost use Rattle.test_world.specs.Count.{Rose};
ghost use Rattle.test_world.specs.Shelf.{ShelfState, Keeps, Visits, TakesUp, HasNoCurrent, Pulls, IsAtEnd, HasName, IsSound, held_of};

use thiserror::Error;

/// A call of an object that was handed in has failed.
#[derive(Debug, Clone, Copy, PartialEq, Eq, Error)]
#[error("a call of the outside world has failed")]
pub struct Fault;

/// A shelf holds texts under names, and gives the bytes of one of them at a time.
pub trait Shelf {
    // What the shelf tells, if it does; the names taken up, if it tells them; its faults; and whether it is sound.
    ghost state: { Self → ShelfState };

    /// Makes the text called `name` the current one, from its first byte. The name `-` is standard
    /// input. After a fault no text is current.
    fn take_up(&mut self, name: &str) -> Result<(), Fault>
        ensures keeps { Keeps (state self.old) (state self.new) }
        ensures visits { Visits (state self.old) (state self.new) (name.now ∷ []) }
        ensures ok { OnOk result (TakesUp (state self.new).shown name.now) }
        ensures err { OnErr result (HasNoCurrent (state self.new).shown) }
        ensures fault { OnErr result (Rose (state self.old).faults (state self.new).faults) }
        ensures stays_sound { IsSound (state self.old) → HasName (held_of (state self.old)) name.now
            → IsSound (state self.new) }
        ensures succeeds { IsSound (state self.old) → HasName (held_of (state self.old)) name.now → IsOk result };

    /// Puts the next bytes of the current text at the front of `buf`, and answers how many. At 0 the
    /// text has ended, or there is none.
    fn pull(&mut self, buf: &mut [u8]) -> Result<usize, Fault>
        requires { 0 < length buf.old }
        ensures keeps { Keeps (state self.old) (state self.new) }
        ensures visits { (state self.new).visited ≡ (state self.old).visited }
        ensures within { IfOk result (λ n. n ≤ length buf.new) }
        ensures ok { IfOk result (λ n. Pulls (state self.old).shown (state self.new).shown (take n buf.new)) }
        ensures end { IfOk result (λ n. n ≡ 0 → IsAtEnd (state self.old).shown) }
        ensures err { OnErr result ((state self.new).shown ≡ (state self.old).shown) }
        ensures fault { OnErr result (Rose (state self.old).faults (state self.new).faults) }
        ensures stays_sound { IsSound (state self.old) → IsSound (state self.new) }
        ensures succeeds { IsSound (state self.old) → IsOk result };
}
