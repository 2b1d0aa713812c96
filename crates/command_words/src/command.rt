ghost use Rattle.std.specs.Prelude.{◌≡◌, true, IfSome, map, string_bytes};
ghost use Rattle.command_words.specs.Command.{IsBounded, command_for, command_of, command_with, fits_places, inputs_of, is_input, names_text, places_of, takes, verb_of};

use crate::number::{bound_at, bound_of, number_at, number_of};

/// What the program is asked to do.
#[derive(Clone, Copy, PartialEq, Eq, Debug)]
pub enum Command {
    /// The chart's replies to the word.
    Play,
    /// The atoms and the classes of a chart, with a text of cuts or without.
    Classes { cuts: bool },
    /// The suite of a chart for a bound from 1 to 1,024, with a text of cuts or without.
    Suite { bound: usize, cuts: bool },
    /// The verdict on an implementation by the suite of a chart for a bound from 1 to 1,024, with a text of cuts or without.
    Run { bound: usize, cuts: bool },
    /// The same as JSON.
    Json { bound: usize, cuts: bool },
    /// The verdict on an implementation by a suite that is read.
    Replay,
    /// The chart of a number, summed up, and the verdict on another number's chart by its suite.
    Gen { number: u32 },
}

/// What the first word asks for. The program does not do all of it yet.
#[derive(Clone, Copy)]
enum Verb {
    Play,
    Classes,
    Suite,
    Run,
    Json,
    Replay,
    Gen,
    SuiteWp,
    Domain,
    Mutants,
    Ask,
}

/// What a word stands for.
#[derive(Clone, Copy, PartialEq, Eq, Debug)]
pub enum Place {
    /// The name of a text.
    Text,
    /// The name of a text of cuts, or `none`.
    Cuts,
    /// A bound: 1 to 4 decimal digits, from 1 to 1,024.
    Bound,
    /// A number: 1 to 10 decimal digits, up to 4,294,967,295.
    Number,
}

/// What the words after a verb stand for.
fn places_of(verb: Verb) -> &'static [Place]
    ensures { result.now ≡ places_of verb }
{
    match verb {
        Verb::Play | Verb::Replay => &[Place::Text, Place::Text],
        Verb::Classes => &[Place::Text, Place::Cuts],
        Verb::Suite | Verb::SuiteWp | Verb::Mutants | Verb::Ask => {
            &[Place::Text, Place::Bound, Place::Cuts]
        }
        Verb::Run | Verb::Json | Verb::Domain => {
            &[Place::Text, Place::Bound, Place::Cuts, Place::Text]
        }
        Verb::Gen => &[Place::Number],
    }
}

/// How many of these words may name standard input: none where replies are read from it.
fn inputs_of(verb: Verb) -> usize
    ensures { result ≡ inputs_of verb }
{
    match verb {
        Verb::Ask => 0,
        _ => 1,
    }
}

fn takes(place: Place, word: &str) -> bool
    ensures { result ≡ takes place word.now }
{
    match place {
        Place::Text | Place::Cuts => word.len() > 0,
        Place::Bound => {
            let bound = bound_of(word);
            0 < bound && bound <= 1_024
        }
        Place::Number => number_of(word).is_some(),
    }
}

fn is_input(place: Place, word: &str) -> bool
    ensures { result ≡ is_input place word.now }
{
    match place {
        Place::Text | Place::Cuts => word == "-",
        Place::Bound | Place::Number => false,
    }
}

// The words stand for these, and at most so many of them name standard input.
fn fits_places(left: usize, places: &[Place], words: &[String]) -> bool
    ensures { result ≡ fits_places left places.now (map string_bytes words.now) }
{
    match places {
        [] => words.len() == 0,
        [place, places @ ..] => match words {
            [] => false,
            [word, words @ ..] => {
                let word = word.as_str();
                if is_input(*place, word) {
                    left > 0 && fits_places(left - 1, places, words)
                } else {
                    takes(*place, word) && fits_places(left, places, words)
                }
            }
        },
    }
}

// The word with this number, counted from 0, names a text of cuts.
fn names_text(words: &[String], number: usize) -> bool
    ensures { result ≡ names_text (map string_bytes words.now) number }
{
    match words.get(number) {
        Some(word) => word.as_str() != "none",
        None => true,
    }
}

fn verb_of(word: &str) -> Option<Verb>
    ensures { result ≡ verb_of word.now }
{
    if word == "play" {
        return Some(Verb::Play);
    }
    if word == "classes" {
        return Some(Verb::Classes);
    }
    if word == "suite" {
        return Some(Verb::Suite);
    }
    if word == "run" {
        return Some(Verb::Run);
    }
    if word == "json" {
        return Some(Verb::Json);
    }
    if word == "replay" {
        return Some(Verb::Replay);
    }
    if word == "gen" {
        return Some(Verb::Gen);
    }
    if word == "suite-wp" {
        return Some(Verb::SuiteWp);
    }
    if word == "domain" {
        return Some(Verb::Domain);
    }
    if word == "mutants" {
        return Some(Verb::Mutants);
    }
    if word == "ask" {
        return Some(Verb::Ask);
    }
    None
}

// The command with these words after its verb, which stand in its places; none where the program does not do it yet.
fn command_for(verb: Verb, words: &[String]) -> Option<Command>
    requires { fits_places (inputs_of verb) (places_of verb) (map string_bytes words.now) ≡ true }
    ensures value { result ≡ command_for verb (map string_bytes words.now) }
    ensures bound { IfSome result IsBounded }
{
    match verb {
        Verb::Play => Some(Command::Play),
        Verb::Replay => Some(Command::Replay),
        Verb::Classes => {
            let cuts = names_text(words, 1);
            Some(Command::Classes { cuts })
        }
        Verb::Suite => {
            let bound = bound_at(words, 1);
            let cuts = names_text(words, 2);
            Some(Command::Suite { bound, cuts })
        }
        Verb::Run => {
            let bound = bound_at(words, 1);
            let cuts = names_text(words, 2);
            Some(Command::Run { bound, cuts })
        }
        Verb::Json => {
            let bound = bound_at(words, 1);
            let cuts = names_text(words, 2);
            Some(Command::Json { bound, cuts })
        }
        Verb::Gen => {
            let number = number_at(words, 0)?;
            Some(Command::Gen { number })
        }
        Verb::SuiteWp | Verb::Domain | Verb::Mutants | Verb::Ask => None,
    }
}

// The command with these words after its verb, if they stand in its places.
fn command_with(verb: Verb, words: &[String]) -> Option<Command>
    ensures value { result ≡ command_with (Some verb) (map string_bytes words.now) }
    ensures bound { IfSome result IsBounded }
{
    if fits_places(inputs_of(verb), places_of(verb), words) {
        command_for(verb, words)
    } else {
        None
    }
}

/// The command that the words are, if they are one.
pub fn command_of(words: &[String]) -> Option<Command>
    ensures value { result ≡ command_of (map string_bytes words.now) }
    ensures bound { IfSome result IsBounded }
{
    match words {
        [] => None,
        [verb, rest @ ..] => match verb_of(verb.as_str()) {
            Some(verb) => command_with(verb, rest),
            None => None,
        },
    }
}
