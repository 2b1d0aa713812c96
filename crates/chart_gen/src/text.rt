ghost use Rattle.std.specs.Prelude.{◌≡◌, ◌≤◌, ◌<◌, ◌++◌, IfOk, OnOk, codes};
ghost use Rattle.std.specs.Fmt.{decimal};
ghost use Rattle.chart_gen.specs.Generated.{down_line, generated_text, state_line, state_lines, transition_lines, up_line};

use itoa::Buffer;
use std::alloc::{AllocError, Global};

fn push_number(text: &mut Vec<u8>, number: usize) -> Result<(), AllocError>
    ensures { OnOk result (text.new.items ≡ text.old.items ++ decimal number) }
{
    let mut buffer = Buffer::new();
    text.extend_from_slice(buffer.format(number).as_bytes())
}

// Puts words and a number behind the text.
fn push(text: &mut Vec<u8>, words: &[u8], number: usize) -> Result<(), AllocError>
    ensures { OnOk result (text.new.items ≡ text.old.items ++ words.now ++ decimal number) }
{
    text.extend_from_slice(words)?;
    push_number(text, number)
}

// Ends the line.
fn end_line(text: &mut Vec<u8>) -> Result<(), AllocError>
    ensures { OnOk result (text.new.items ≡ text.old.items ++ codes "\n") }
{
    text.extend_from_slice(b"\n")
}

// Puts the line of the state with this number.
fn push_state(text: &mut Vec<u8>, state: usize) -> Result<(), AllocError>
    ensures { OnOk result (text.new.items ≡ text.old.items ++ state_line state) }
{
    if state == 0 {
        return text.extend_from_slice(b"state s0 start\n");
    }
    push(text, b"state s", state)?;
    end_line(text)
}

// Puts the lines of the first states.
fn push_states(text: &mut Vec<u8>, states: usize) -> Result<(), AllocError>
    ensures { OnOk result (text.new.items ≡ text.old.items ++ state_lines states) }
{
    for state in 0..states {
        push_state(text, state)?;
    }
    Ok(())
}

// Puts the line of the transition up from a state.
fn push_up(text: &mut Vec<u8>, state: usize) -> Result<(), AllocError>
    requires { state < 40 }
    ensures { OnOk result (text.new.items ≡ text.old.items ++ up_line state) }
{
    push(text, b"on s", state)?;
    push(text, b" when v >= ", 10 * (state + 1))?;
    push(text, b" do o = ", state + 1)?;
    push(text, b" go s", state + 1)?;
    end_line(text)
}

// Puts the line of the transition down to a state.
fn push_down(text: &mut Vec<u8>, gap: usize, state: usize) -> Result<(), AllocError>
    requires state { state < 40 }
    requires gap { gap ≤ 10 }
    ensures { OnOk result (text.new.items ≡ text.old.items ++ down_line gap state) }
{
    push(text, b"on s", state + 1)?;
    push(text, b" when v < ", 10 * (state + 1) - gap)?;
    push(text, b" do o = ", state)?;
    push(text, b" go s", state)?;
    end_line(text)
}

// Puts the lines of the transitions between the first states and their next ones.
fn push_transitions(text: &mut Vec<u8>, gap: usize, states: usize) -> Result<(), AllocError>
    requires states { states ≤ 40 }
    requires gap { gap ≤ 10 }
    ensures { OnOk result (text.new.items ≡ text.old.items ++ transition_lines gap states) }
{
    for state in 0..states {
        push_up(text, state)?;
        push_down(text, gap, state)?;
    }
    Ok(())
}

/// The lines of the chart of a number.
pub fn text_of(alloc: Global, number: u32) -> Result<Vec<u8>, AllocError>
    ensures { IfOk result (λ text. text.items ≡ generated_text number) }
{
    let states = 2 + (number % 38) as usize;
    let gap = 1 + (number / 38 % 5) as usize;
    let mut text = Vec::new(alloc);
    push(&mut text, b"chart 1\ninput v 0 ", 10 * states)?;
    text.extend_from_slice(b"\noutput o 0\n")?;
    push_states(&mut text, states)?;
    push_transitions(&mut text, gap, states - 1)?;
    Ok(text)
}
