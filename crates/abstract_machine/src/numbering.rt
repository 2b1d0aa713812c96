ghost use Rattle.std.specs.Prelude.{◌≡◌, true, IfOk, IfSome, IsTrue, Some, slice_get};
ghost use Rattle.indexmap.specs.IndexSet.{IsUnique};
ghost use Rattle.abstract_machine.specs.inside.Exploring.{IsNumbered};

use indexmap::IndexSet;
use std::alloc::AllocError;
use std::hash::Hash;

/// Places of keys that were found lately, the last one first. They are guesses, on which nothing rests but time.
#[derive(Clone, Copy)]
pub struct Recent {
    places: [usize; 6],
}

impl Recent {
    /// One place alone.
    pub fn new(place: usize) -> Recent {
        Recent { places: [place; 6] }
    }

    /// Puts a place first. Those before its old place, or before the last, move back by one.
    fn put(&mut self, place: usize) {
        let mut moved = place;
        for slot in self.places.iter_mut() {
            let old = *slot;
            *slot = moved;
            if old == place {
                return;
            }
            moved = old;
        }
    }
}

/// The number of a key, which is put in where it is not there. Where the key at a recent place is the same, nothing is
/// looked up.
pub fn number_of<K: Copy + Eq + Hash>(
    keys: &mut IndexSet<K>,
    key: &K,
    recent: &mut Recent,
) -> Result<usize, AllocError>
    ensures numbered { IfOk result (λ n. ((x y : K) → K.eq x y ≡ true → x ≡ y) → IsNumbered keys.old.keys key.now keys.new.keys n) }
    ensures unique { IsUnique K.eq keys.new }
{
    if let Some(place) = place_among(keys.as_slice(), key, &recent.places) {
        recent.put(place);
        return Ok(place);
    }
    let found = keys.insert_full(*key)?;
    recent.put(found.0);
    Ok(found.0)
}

/// The first of some places at which the key is the same.
fn place_among<K: Copy + Eq>(keys: &[K], key: &K, places: &[usize]) -> Option<usize>
    ensures { IfSome result (λ place. (k : K) × ((slice_get keys.now place ≡ Some k) × (K.eq key.now k ≡ true))) }
{
    for place in places {
        if is_at(keys, key, *place) {
            return Some(*place);
        }
    }
    None
}

/// Whether the key at a place is the same.
fn is_at<K: Copy + Eq>(keys: &[K], key: &K, place: usize) -> bool
    ensures { IsTrue result → (k : K) × ((slice_get keys.now place ≡ Some k) × (K.eq key.now k ≡ true)) }
{
    match keys.get(place) {
        Some(other) => *key == *other,
        None => false,
    }
}
