//! Which of the two directions a packet belongs to.

ghost use Rattle.std.specs.Prelude.{◌≡◌};
ghost use Rattle.pldm_terminus.specs.Directions.{is_answer};

/// Whether the bytes of a packet are a part of an answer: TO is 0, so that the end to which it goes chose its tag
/// (DSP0236, "MCTP packet fields"). Fewer bytes than a header are not.
pub fn is_answer(bytes: &[u8]) -> bool
    ensures { result ≡ is_answer bytes.now }
{
    match bytes {
        [_, _, _, flags, ..] => flags >> 3 & 1 == 0,
        _ => false,
    }
}
