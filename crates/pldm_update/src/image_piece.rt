//! The pieces of an image.

ghost use Rattle.std.specs.Prelude.{◌≡◌, ◌+◌, ◌≤◌, ◌++◌, length, replicate};
ghost use Rattle.arrayvec.specs.ArrayVec.{array_vec_len};
ghost use Rattle.pldm_update.specs.ImagePieces.{piece};

use crate::{MAX_PIECE_BYTES, Piece};
use arrayvec::ArrayVec;

/// The bytes of a piece.
type PieceBytes = ArrayVec<u8, MAX_PIECE_BYTES>;

/// Adds bytes for which there is room.
fn put(bytes: &mut PieceBytes, more: &[u8])
    requires { array_vec_len bytes.old + length more.now ≤ MAX_PIECE_BYTES }
    ensures { bytes.new.items ≡ bytes.old.items ++ more.now }
{
    bytes.try_extend_from_slice(more).unwrap();
}

/// Adds so many zeros, for which there is room.
fn pad(bytes: &mut PieceBytes, count: usize)
    requires { array_vec_len bytes.old + count ≤ MAX_PIECE_BYTES }
    ensures { bytes.new.items ≡ bytes.old.items ++ replicate count 0 }
{
    for _ in 0..count {
        bytes.push(0);
    }
}

/// The piece of an image from this offset on, of so many bytes, at most [`MAX_PIECE_BYTES`]: past the image's end they
/// are 0 (DSP0267, "RequestFirmwareData command").
pub fn piece_of(image: &[u8], offset: u32, length: usize) -> Piece
    requires { length ≤ MAX_PIECE_BYTES }
    ensures { result ≡ piece image.now offset length }
{
    let bytes = bytes_of(image, offset, length);
    Piece::new(&bytes).unwrap()
}

/// Its bytes.
fn bytes_of(image: &[u8], offset: u32, length: usize) -> PieceBytes
    requires { length ≤ MAX_PIECE_BYTES }
    ensures { result.items ≡ piece image.now offset length }
{
    let start = image.len().min(offset as usize);
    let (_, rest) = image.split_at(start);
    let (front, _) = rest.split_at(rest.len().min(length));
    let mut bytes = PieceBytes::new();
    put(&mut bytes, front);
    pad(&mut bytes, length - front.len());
    bytes
}
