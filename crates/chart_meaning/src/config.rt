ghost use Rattle.std.specs.Prelude.{◌≡◌, ◌<◌, ◌≤◌, pos, length, replicate, slice_set, FitsSigned, None, Some};
ghost use Rattle.std.specs.Int.{w16};
ghost use Rattle.lin_form.specs.Padded.{padded};
ghost use Rattle.chart_meaning.specs.Step.{last_child};
ghost use Rattle.chart_meaning.specs.Same.{codes_of};

use std::hash::{Hash, Hasher};
use std::marker::Model;

/// What a chart is in between two steps: its leaf, the values of its memories and outputs, and the last children
/// of its remembering states.
#[derive(Clone, Copy, Debug)]
pub struct Config {
    outputs: [i64; 8],
    memory: [i16; 4],
    /// For each state one more than the number of its last child, and 0 where it has none.
    last: [u8; 64],
    leaf: u8,
    memory_count: u8,
    output_count: u8,
    state_count: u8,
}

impl Model for Config {
    ghost use Rattle.std.specs.Prelude.{pos, take, map, length};
    ghost use Rattle.lin_form.specs.Padded.{padded, padded-take, length-taken};
    ghost use Rattle.chart_meaning.specs.Configuration.{Configuration};
    ghost use Rattle.chart_meaning.specs.Same.{code_of, child_of, IsStored};

    ghost Value = { Configuration };

    ghost view = { λ c. record {
      leaf = c.leaf;
      memory = take c.memory_count c.memory;
      outputs = take c.output_count c.outputs;
      last = map child_of (take c.state_count c.last);
    } };

    ghost invariant = { λ c. IsStored c.memory_count c.output_count c.state_count c.memory c.outputs c.last };

    ghost inverse = { λ c. record {
      outputs = padded (pos 0) 8 c.outputs;
      memory = padded (pos 0) 4 c.memory;
      last = padded 0 64 (map code_of c.last);
      leaf = c.leaf;
      memory_count = length c.memory;
      output_count = length c.outputs;
      state_count = length c.last;
    } };

    ghost use Rattle.chart_meaning.specs.Same.{codes-taken, length-children};

    ghost inverse_ok = { λ c h i. record {
      outputs = padded-take h.output_places i;
      memory = padded-take h.memory_places i;
      last = codes-taken h.last_places i;
      leaf = c.leaf;
      memory_count = length-taken h.memory_places i;
      output_count = length-taken h.output_places i;
      state_count = length-children h.last_places i;
    } };
}

/// No state has a last child.
fn no_children() -> [u8; 64]
    ensures { result ≡ replicate 64 0 }
{
    [0; 64]
}

impl Config {
    /// Values for so many memories, for the outputs, and for so many states, of which none has a last child.
    pub(crate) fn new(memory_count: usize, outputs: &[i64], state_count: usize) -> Config
        requires memories { memory_count ≤ 4 }
        requires outputs { length outputs.now ≤ 8 }
        requires states { state_count ≤ 64 }
        ensures { result ≡ record { leaf = 0; memory = replicate memory_count (pos 0); outputs = outputs.now; last = replicate state_count None } }
    {
        let mut values = [0; 8];
        values[..outputs.len()].copy_from_slice(outputs);
        Config {
            outputs: values,
            memory: [0; 4],
            last: no_children(),
            leaf: 0,
            memory_count: memory_count as u8,
            output_count: outputs.len() as u8,
            state_count: state_count as u8,
        }
    }

    /// The number of the leaf.
    pub(crate) fn leaf(&self) -> usize
        ensures { result ≡ self.now.leaf }
    {
        self.leaf as usize
    }

    /// The values of the memories, and zeros past them.
    pub(crate) fn memory(&self) -> [i64; 4]
        ensures { result ≡ padded (pos 0) 4 self.now.memory }
    {
        [
            self.memory[0] as i64,
            self.memory[1] as i64,
            self.memory[2] as i64,
            self.memory[3] as i64,
        ]
    }

    /// The values of the memories, in order of declaration.
    fn memory_places(&self) -> &[i16]
        ensures { result.now ≡ self.now.memory }
    {
        &self.memory[..self.memory_count as usize]
    }

    /// The last children, as the array has them.
    fn last_codes(&self) -> &[u8]
        ensures { result.now ≡ codes_of self.now }
    {
        &self.last[..self.state_count as usize]
    }

    /// The values of the outputs, in order of declaration.
    pub(crate) fn outputs(&self) -> &[i64]
        ensures value { result.now ≡ self.now.outputs }
        ensures short { length self.now.outputs ≤ 8 }
    {
        &self.outputs[..self.output_count as usize]
    }

    /// The last child of a state, if it has one.
    pub(crate) fn last_child(&self, state: usize) -> Option<usize>
        requires { state < length self.now.last }
        ensures { result ≡ last_child self.now state }
    {
        let code = self.last[state] as usize;
        if code == 0 { None } else { Some(code - 1) }
    }

    /// Makes a state the leaf.
    pub(crate) fn set_leaf(&mut self, leaf: usize)
        requires { leaf < 64 }
        ensures { self.new ≡ record self.old { leaf = leaf } }
    {
        self.leaf = leaf as u8;
    }

    /// Gives a memory a value.
    pub(crate) fn set_memory(&mut self, number: usize, value: i64)
        requires inside { number < length self.old.memory }
        requires small { FitsSigned w16 value }
        ensures { self.new ≡ record self.old { memory = slice_set self.old.memory number value } }
    {
        let memory = &mut self.memory;
        memory[number] = value as i16;
    }

    /// Gives an output a value.
    pub(crate) fn set_output(&mut self, number: usize, value: i64)
        requires { number < length self.old.outputs }
        ensures { self.new ≡ record self.old { outputs = slice_set self.old.outputs number value } }
    {
        let outputs = &mut self.outputs;
        outputs[number] = value;
    }

    /// Makes a child the last child of a state.
    pub(crate) fn set_last_child(&mut self, state: usize, child: usize)
        requires inside { state < length self.old.last }
        requires small { child < 64 }
        ensures { self.new ≡ record self.old { last = slice_set self.old.last state (Some child) } }
    {
        self.last[state] = child as u8 + 1;
    }
}

impl PartialEq for Config {
    ghost use Rattle.std.specs.Cmp.{partial_equiv_from_equiv};
    ghost use Rattle.chart_meaning.specs.Same.{is_same, is_same_equiv};

    ghost eq = { is_same };

    ghost laws = { partial_equiv_from_equiv is_same_equiv };

    fn eq(&self, other: &Self) -> bool {
        self.leaf() == other.leaf()
            && self.memory_places() == other.memory_places()
            && self.outputs() == other.outputs()
            && self.last_codes() == other.last_codes()
    }
}

impl Eq for Config {
    ghost use Rattle.chart_meaning.specs.Same.{is_same_equiv};

    ghost laws = { is_same_equiv };
}

impl Hash for Config {
    ghost use Rattle.std.proofs.Common.{ap};
    ghost use Rattle.chart_meaning.specs.Same.{fed_by, same_configurations};

    ghost hash_input = { fed_by };

    ghost respects_eq = { λ x y e. ap fed_by (same_configurations x y e) };

    fn hash<H: Hasher>(&self, state: &mut H) {
        self.leaf.hash(state);
        self.memory_places().hash(state);
        self.outputs().hash(state);
        state.write(self.last_codes());
    }
}
