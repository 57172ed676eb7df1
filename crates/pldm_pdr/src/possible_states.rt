//! The states that a sensor or an effecter can have, a bit for each (DSP0248, "possibleStates").

ghost use Rattle.std.specs.Prelude.{◌≡◌, ◌+◌, ◌<◌, ◌≤◌, ℕ, IsTrue};
ghost use Rattle.pldm_pdr.specs.StateSets.{bit_of, bits_from, bits_in, has_state, is_among, last_byte, possible_states_fit};

use crate::MAX_STATE_BYTES;
use arrayvec::ArrayVec;

/// The states that one sensor or effecter of a composite one can have (DSP0248, "possibleStates").
#[derive(Debug, Default, PartialEq, Eq, Drop)]
pub struct PossibleStates {
    /// The state set, a number of DSP0249.
    pub state_set: u16,
    /// The states of the set, a bit each: state s is bit s mod 8 of byte s / 8. A record has 1 to [`MAX_STATE_BYTES`]
    /// bytes.
    pub bits: ArrayVec<u8, MAX_STATE_BYTES>,
}

impl PossibleStates {
    /// These states of the state set and no others, in as few bytes as have their bits.
    pub fn of(state_set: u16, states: &[u8]) -> PossibleStates
        ensures set { result.state_set ≡ state_set }
        ensures bits { result.bits.items ≡ bits_in states.now (last_byte states.now + 1) }
        ensures states { (state : ℕ) → has_state result.bits.items state ≡ is_among states.now state }
        ensures fits { IsTrue (possible_states_fit result) }
    {
        let count = last_byte(states) + 1;
        let bits = bits_in(states, count);
        PossibleStates { state_set, bits }
    }

    /// Whether this state is one of them.
    pub fn has_state(&self, state: u8) -> bool
        ensures { result ≡ has_state self.now.bits.items state }
    {
        match self.bits.get(usize::from(state / 8)) {
            Some(byte) => byte >> (state % 8) & 1 == 1,
            None => false,
        }
    }
}

/// The last byte that has a bit of these states.
fn last_byte(states: &[u8]) -> u8
    ensures value { result ≡ last_byte states.now }
    ensures range { result < MAX_STATE_BYTES }
{
    match states {
        [] => 0,
        [state, rest @ ..] => (*state / 8).max(last_byte(rest)),
    }
}

/// The bits of these states in so many bytes.
fn bits_in(states: &[u8], count: u8) -> ArrayVec<u8, MAX_STATE_BYTES>
    requires { count ≤ MAX_STATE_BYTES }
    ensures { result.items ≡ bits_in states.now count }
{
    let mut bits = ArrayVec::new();
    for place in 0..count {
        bits.push(bits_from(states, 8 * place));
    }
    bits
}

/// The bits of eight states, from a first one on.
fn bits_from(states: &[u8], first: u8) -> u8
    requires { first + 8 ≤ 256 }
    ensures { result ≡ bits_from states.now first }
{
    bit_of(states, first)
        + 2 * bit_of(states, first + 1)
        + 4 * bit_of(states, first + 2)
        + 8 * bit_of(states, first + 3)
        + 16 * bit_of(states, first + 4)
        + 32 * bit_of(states, first + 5)
        + 64 * bit_of(states, first + 6)
        + 128 * bit_of(states, first + 7)
}

/// 1 where the state is among these, else 0.
fn bit_of(states: &[u8], state: u8) -> u8
    ensures value { result ≡ bit_of states.now state }
    ensures range { result ≤ 1 }
{
    u8::from(is_among(states, state))
}

/// Whether the state is among these.
fn is_among(states: &[u8], state: u8) -> bool
    ensures { result ≡ is_among states.now state }
{
    match states {
        [] => false,
        [first, rest @ ..] => *first == state || is_among(rest, state),
    }
}
