ghost use Rattle.std.specs.Prelude.{◌≡◌, ◌+◌, ◌*◌, ◌≤◌, ◌++◌, ◌∷◌, [], length, map, true};
ghost use Rattle.std.specs.List.{All, flat_map};
ghost use Rattle.test_world.specs.Sink.{Puts};
ghost use Rattle.class_stages.specs.Text.{atom_line, class_line, classes_text, digit_of, pattern_text};

use class_split::Partition;
use command_stages::{Line, Print};
use input_classes::{Class, Pattern};
use lin_form::Atom;
use std::marker::Model;
use test_world::{Fault, Sink, put_all};

/// What `classes` prints: the atoms and the classes of a partition.
#[derive(Drop)]
pub struct ClassLines {
    partition: Partition,
}

impl Model for ClassLines {
    ghost use Rattle.std.specs.Prelude.{true};
    ghost use Rattle.command_stages.specs.Stage.{Printed};
    ghost use Rattle.class_stages.specs.Text.{classes_text};

    ghost Value = { Printed };

    ghost view = { λ lines. record { passes = true; text = classes_text lines.partition } };
}

impl ClassLines {
    /// The lines of a partition. It takes no memory.
    pub fn new(partition: Partition) -> ClassLines
        ensures { result ≡ record { passes = true; text = classes_text partition } }
    {
        ClassLines { partition }
    }
}

impl Print for ClassLines {
    ghost printed = { λ lines. lines };

    fn passes(&self) -> bool {
        let _partition = &self.partition;
        true
    }

    fn put<K: Sink>(&mut self, out: &mut K) -> Result<(), Fault> {
        let _inputs = self.partition.bounds().inputs();
        match put_atoms(self.partition.atoms().as_slice(), out) {
            Ok(()) => {}
            Err(fault) => return Err(fault),
        }
        put_classes(self.partition.classes(), out)
    }
}

/// Puts a line for each atom. It takes no memory.
fn put_atoms<K: Sink>(atoms: &[Atom], out: &mut K) -> Result<(), Fault>
    requires { All (λ atom. length atom.coefficients ≤ 6) atoms.now }
    ensures { Puts (K.state out.old) (K.state out.new) (flat_map atom_line atoms.now) result }
{
    let mut line = Line::new();
    'lines: for atom in atoms {
        set_atom(&mut line, atom);
        match put_all(out, line.bytes()) {
            Ok(()) => {}
            Err(fault) => return Err(fault),
        }
    }
    Ok(())
}

/// Puts a line for each class. It takes no memory.
fn put_classes<K: Sink>(classes: &[Class], out: &mut K) -> Result<(), Fault>
    requires patterns { All (λ class. length class.pattern ≤ 128) classes.now }
    requires witnesses { All (λ class. length class.witness ≤ 6) classes.now }
    ensures { Puts (K.state out.old) (K.state out.new) (flat_map class_line classes.now) result }
{
    let mut line = Line::new();
    'lines: for class in classes {
        set_class(&mut line, class);
        match put_all(out, line.bytes()) {
            Ok(()) => {}
            Err(fault) => return Err(fault),
        }
    }
    Ok(())
}

/// Makes the line of an atom.
fn set_atom(line: &mut Line, atom: &Atom)
    requires { length atom.now.coefficients ≤ 6 }
    ensures { line.new ≡ atom_line atom.now }
{
    line.clear();
    line.push(b"atom");
    line.push_numbers(atom.coefficients.as_slice());
    line.push_numbers(&[atom.constant]);
    line.push(b"\n");
}

/// Makes the line of a class.
fn set_class(line: &mut Line, class: &Class)
    requires pattern { length class.now.pattern ≤ 128 }
    requires witness { length class.now.witness ≤ 6 }
    ensures { line.new ≡ class_line class.now }
{
    line.clear();
    line.push(b"class ");
    push_pattern(line, &class.pattern);
    line.push_numbers(class.witness.as_slice());
    line.push(b"\n");
}

/// Adds the digits of a pattern.
fn push_pattern(line: &mut Line, pattern: &Pattern)
    requires room { length line.old ≤ 20 }
    requires short { length pattern.now ≤ 128 }
    ensures bytes { line.new ≡ line.old ++ pattern_text pattern.now }
    ensures short { length line.new ≤ length line.old + 128 }
{
    let truths = pattern.as_slice();
    if truths.len() == 0 {
        line.push(b"-");
    } else {
        push_digits(line, truths);
    }
}

fn push_digits(line: &mut Line, truths: &[bool])
    requires room { length line.old ≤ 20 }
    requires short { length truths.now ≤ 128 }
    ensures bytes { line.new ≡ line.old ++ map digit_of truths.now }
    ensures short { length line.new ≤ length line.old + 128 }
{
    'digits: for truth in truths {
        line.push(digit(*truth));
    }
}

fn digit(truth: bool) -> &'static [u8]
    ensures { result.now ≡ digit_of truth ∷ [] }
{
    if truth { b"1" } else { b"0" }
}
