//! A piece of an image.

ghost use Rattle.std.specs.Prelude.{◌≡◌, ◌↔◌, IsSome, IfSome};
ghost use Rattle.pldm_update.specs.Pieces.{IsPiece};

use crate::MAX_PIECE_BYTES;
use arrayvec::ArrayVec;
use std::marker::Model;

/// A piece of a component's image: at most [`MAX_PIECE_BYTES`] bytes (DSP0267, "RequestFirmwareData command").
#[derive(Debug, PartialEq, Eq, Drop)]
pub struct Piece {
    bytes: ArrayVec<u8, MAX_PIECE_BYTES>,
}

impl Model for Piece {
    ghost use Rattle.std.specs.Prelude.{List, ℕ};
    ghost use Rattle.pldm_update.specs.Pieces.{IsPiece};

    ghost Value = { List ℕ };

    ghost view = { λ p. p.bytes.items };

    ghost invariant = { λ p. IsPiece p.bytes.items };

    ghost inverse = { λ xs. record { bytes = record { items = xs } } };
}

impl Piece {
    /// These bytes, where there are at most [`MAX_PIECE_BYTES`].
    pub fn new(bytes: &[u8]) -> Option<Piece>
        ensures some { IsSome result ↔ IsPiece bytes.now }
        ensures bytes { IfSome result (λ made. made ≡ bytes.now) }
    {
        if bytes.len() > MAX_PIECE_BYTES {
            return None;
        }
        Some(Piece::of(bytes))
    }

    /// The piece of these bytes.
    pub(crate) fn of(bytes: &[u8]) -> Piece
        requires { IsPiece bytes.now }
        ensures { result ≡ bytes.now }
    {
        let mut kept = ArrayVec::new();
        let _ = kept.try_extend_from_slice(bytes); // they fit
        Piece { bytes: kept }
    }

    /// The bytes in order.
    pub fn as_slice(&self) -> &[u8]
        ensures value { result.now ≡ self.now }
        ensures range { IsPiece self.now }
    {
        self.bytes.as_slice()
    }
}
