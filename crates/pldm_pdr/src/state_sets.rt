//! The possible states of a composite sensor or effecter, read and written.

ghost use Rattle.std.specs.Prelude.{◌≡◌, ◌+◌, ◌*◌, ◌≤◌, IsTrue, length};
ghost use Rattle.arrayvec.specs.ArrayVec.{array_vec_len};
ghost use Rattle.pldm_pdr.specs.Fields.{Adds, Gives};
ghost use Rattle.pldm_wire.specs.Numbers.{IsU16};
ghost use Rattle.pldm_pdr.specs.StateSets.{AreInRange, IsComposite, composite_at, composite_bytes, composite_fits, each_fits, kept, possible_states_at, possible_states_bytes, possible_states_fit, sets_at, sets_bytes};

use crate::fields::{byte_in, slice_in, u16_in};
use crate::pushes::{push_byte, push_bytes, push_u16};
use crate::{MAX_RECORD_BYTES, MAX_STATE_BYTES, PossibleStates, RecordBytes, RecordFault};
use arrayvec::ArrayVec;
use pldm_wire::MAX_STATES;

/// The possible states of a composite sensor or effecter: how many there are, and those of each.
#[tactic(auto, unfolding(crate::specs::Fields::and_then, crate::specs::Fields::refused, crate::specs::StateSets::composite_at))]
pub(crate) fn composite_in(
    bytes: &[u8],
) -> Result<(ArrayVec<PossibleStates, MAX_STATES>, &[u8]), RecordFault>
    ensures { Gives (λ x. (x.0.items, x.1.now)) result (composite_at bytes.now) }
{
    let (count, rest) = byte_in(bytes)?;
    let count = usize::from(count);
    if count < 1 || count > MAX_STATES {
        return Err(RecordFault::Count);
    }
    sets_in(count, rest)
}

/// So many sets, one after another.
fn sets_in(
    count: usize,
    bytes: &[u8],
) -> Result<(ArrayVec<PossibleStates, MAX_STATES>, &[u8]), RecordFault>
    requires { count ≤ MAX_STATES }
    ensures { Gives (λ x. (x.0.items, x.1.now)) result (sets_at count bytes.now) }
{
    let mut sets = ArrayVec::new();
    let mut rest = bytes;
    for _ in 0..count {
        let (states, after) = possible_states_in(rest)?;
        sets.push(states);
        rest = after;
    }
    Ok((sets, rest))
}

/// The possible states of one set.
#[tactic(auto, unfolding(crate::specs::Fields::and_then, crate::specs::Fields::refused, crate::specs::StateSets::possible_states_at))]
fn possible_states_in(bytes: &[u8]) -> Result<(PossibleStates, &[u8]), RecordFault>
    ensures { Gives (λ x. (x.0, x.1.now)) result (possible_states_at bytes.now) }
{
    let (state_set, rest) = u16_in(bytes)?;
    let (count, rest) = byte_in(rest)?;
    let count = usize::from(count);
    if count < 1 || count > MAX_STATE_BYTES {
        return Err(RecordFault::States);
    }
    let (states, rest) = slice_in(count, rest)?;
    let bits = kept(states);
    Ok((PossibleStates { state_set, bits }, rest))
}

/// These bytes, which are not too many.
fn kept(states: &[u8]) -> ArrayVec<u8, MAX_STATE_BYTES>
    requires { length states.now ≤ MAX_STATE_BYTES }
    ensures { result ≡ kept states.now }
{
    let mut bits = ArrayVec::new();
    let _ = bits.try_extend_from_slice(states); // they fit
    bits
}

/// Whether there are 1 to [`MAX_STATES`] sets, each in 1 to [`MAX_STATE_BYTES`] bytes.
pub(crate) fn composite_fits(sets: &[PossibleStates]) -> bool
    ensures { result ≡ composite_fits sets.now }
{
    !sets.is_empty() && sets.len() <= MAX_STATES && each_fits(sets)
}

/// Whether each set is in 1 to [`MAX_STATE_BYTES`] bytes.
fn each_fits(sets: &[PossibleStates]) -> bool
    ensures { result ≡ each_fits sets.now }
{
    match sets {
        [] => true,
        [states, rest @ ..] => possible_states_fit(states) && each_fits(rest),
    }
}

/// Whether the set is in 1 to [`MAX_STATE_BYTES`] bytes.
fn possible_states_fit(states: &PossibleStates) -> bool
    ensures { result ≡ possible_states_fit states.now }
{
    !states.bits.is_empty() && states.bits.len() <= MAX_STATE_BYTES
}

/// Adds how many sets there are, and each.
pub(crate) fn push_composite(out: &mut RecordBytes, sets: &[PossibleStates])
    requires room { array_vec_len out.old + 281 ≤ MAX_RECORD_BYTES }
    requires fits { IsTrue (composite_fits sets.now) }
    ensures added { Adds out.old.items out.new.items (composite_bytes sets.now) }
    ensures len { array_vec_len out.new ≤ array_vec_len out.old + 281 }
    ensures range { IsComposite sets.now }
{
    push_byte(out, sets.len() as u8);
    push_sets(out, sets);
}

/// Adds each set.
fn push_sets(out: &mut RecordBytes, sets: &[PossibleStates])
    requires room { array_vec_len out.old + 35 * length sets.now ≤ MAX_RECORD_BYTES }
    requires fits { IsTrue (each_fits sets.now) }
    ensures added { Adds out.old.items out.new.items (sets_bytes sets.now) }
    ensures len { array_vec_len out.new ≤ array_vec_len out.old + 35 * length sets.now }
    ensures range { AreInRange sets.now }
{
    if let [states, rest @ ..] = sets {
        push_possible_states(out, states);
        push_sets(out, rest);
    }
}

/// Adds the state set, how many bytes its states are in, and these.
fn push_possible_states(out: &mut RecordBytes, states: &PossibleStates)
    requires room { array_vec_len out.old + 35 ≤ MAX_RECORD_BYTES }
    requires fits { IsTrue (possible_states_fit states.now) }
    ensures added { Adds out.old.items out.new.items (possible_states_bytes states.now) }
    ensures len { array_vec_len out.new ≤ array_vec_len out.old + 35 }
    ensures range { IsU16 states.now.state_set }
{
    push_u16(out, states.state_set);
    push_byte(out, states.bits.len() as u8);
    push_bytes(out, &states.bits);
}
