// The escape machine: undoes the escapes of a word, byte by byte.
ghost use Rattle.std.specs.Prelude.{◌≡◌, take, vec_items, IfSome, IfOk};
ghost use Rattle.std.specs.Option.{option_map};
ghost use Rattle.words.specs.Escapes.{Sound, SoundStep, step_of, unescaped};

use crate::printable::is_printable;
use arrayvec::ArrayVec;
use std::alloc::{AllocError, Global};

// What has been read of an escape.
#[derive(Clone, Copy)]
pub enum State {
    Plain,
    Backslash,
    OneDigit(u8),
    TwoDigits(u8),
}

// What a byte does in a state.
#[derive(Clone, Copy)]
pub enum Step {
    To(State),
    Out(u8),
}

// No step, where the byte may not come in the state.
fn take_byte(state: State, byte: u8) -> Option<Step>
    requires { Sound state }
    ensures value { result ≡ step_of state byte }
    ensures sound { IfSome result SoundStep }
{
    Some(match (state, byte) {
        (State::Plain, b'\\') => Step::To(State::Backslash),
        (State::Plain, _) if is_printable(byte) => Step::Out(byte),
        (State::Backslash, b'0'..=b'3') => Step::To(State::OneDigit(byte - b'0')),
        (State::OneDigit(high), b'0'..=b'7') => Step::To(State::TwoDigits(
            high * 8 + (byte - b'0'),
        )),
        (State::TwoDigits(high), b'0'..=b'7') => Step::Out(high * 8 + (byte - b'0')),
        _ => return None,
    })
}

// The first 123 bytes that a word stands for. A path and the `./` before it need no more than 122:
// the last shows that there are too many.
#[tactic(auto, using(crate::proofs::Machine::machine_steps))]
pub(crate) fn unescape(word: &[u8]) -> Option<ArrayVec<u8, 123>>
    ensures { option_map (λ v. v.items) result ≡ option_map (take 123) (unescaped word.now) }
{
    let mut state = State::Plain;
    let mut plain = ArrayVec::new();
    for byte in word {
        state = match take_byte(state, *byte)? {
            Step::To(next) => next,
            Step::Out(made) => {
                if !plain.is_full() {
                    plain.push(made);
                }
                State::Plain
            }
        };
    }
    match state {
        State::Plain => Some(plain),
        _ => None,
    }
}

// All the bytes that a word stands for.
#[tactic(auto, using(crate::proofs::Machine::machine_steps, crate::proofs::Machine::no_longer))]
pub fn unescape_all(heap: Global, word: &[u8]) -> Result<Option<Vec<u8>>, AllocError>
    ensures { IfOk result (λ o. option_map vec_items o ≡ unescaped word.now) }
{
    let mut state = State::Plain;
    let mut plain = Vec::new(heap);
    for byte in word {
        let Some(step) = take_byte(state, *byte) else {
            return Ok(None);
        };
        state = match step {
            Step::To(next) => next,
            Step::Out(made) => {
                plain.push(made)?;
                State::Plain
            }
        };
    }
    match state {
        State::Plain => Ok(Some(plain)),
        _ => Ok(None),
    }
}
