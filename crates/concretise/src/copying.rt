ghost use Rattle.std.specs.Prelude.{◌≡◌, ◌<◌, length, map, IfOk};
ghost use Rattle.input_classes.specs.declared.class.Class.{Class as ClassValue};
ghost use Rattle.suite_model.specs.Pooled.{lists};
ghost use Rattle.word_pool.specs.Words.{word, words_at, AreIds};

use class_split::Class;
use lin_form::{Inputs, Names, Signature, Vector};
use std::alloc::{AllocError, Global};
use word_pool::{Pool, WordId};

/// A copy of a signature.
pub fn copied(alloc: Global, signature: &Signature) -> Result<Signature, AllocError>
    ensures { IfOk result (λ s. s ≡ signature.now) }
{
    let inputs = signature.inputs.as_slice().to_vec(alloc)?;
    let outputs = signature.outputs.as_slice().to_vec(alloc)?;
    Ok(Signature {
        inputs: Inputs::from_vec(inputs),
        outputs: Names::from_vec(outputs),
    })
}

/// The classes' witnesses.
pub fn witnesses_of(alloc: Global, classes: &[Class]) -> Result<Vec<Vector>, AllocError>
    ensures { IfOk result (λ v. v.items ≡ map (λ (c : ClassValue). c.witness) classes.now) }
{
    let mut vectors = Vec::with_capacity(alloc, classes.len())?;
    for class in classes {
        vectors.push(class.witness.clone()?)?;
    }
    Ok(vectors)
}

/// The letters of words of a pool.
pub fn lists_at(alloc: Global, pool: &Pool, ids: &[WordId]) -> Result<Vec<Vec<u16>>, AllocError>
    requires { AreIds pool.now.words ids.now }
    ensures { IfOk result (λ v. lists v.items ≡ words_at pool.now.words ids.now) }
{
    let mut words = Vec::with_capacity(alloc, ids.len())?;
    for id in ids {
        words.push(word_at(alloc, pool, *id)?)?;
    }
    Ok(words)
}

/// The letters of a word of a pool.
fn word_at(alloc: Global, pool: &Pool, id: WordId) -> Result<Vec<u16>, AllocError>
    requires { id < length pool.now.words }
    ensures { IfOk result (λ v. v.items ≡ word pool.now.words id) }
{
    let mut letters = vec![in alloc; 0; pool.length(id)]?;
    pool.letters(id, letters.as_mut_slice());
    Ok(letters)
}
