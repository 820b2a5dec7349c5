use ot_job::Piece;

/// A piece in the hand of a worker. Where its world ends, it is given up.
#[derive(Debug)]
pub struct Held {
    pub tenant: u32,
    pub piece: Piece,
}

impl Held {
    ghost use Rattle.std.specs.Prelude.{◌≡◌};

    /// The piece itself.
    pub(crate) fn into_piece(self) -> Piece
        ensures { result ≡ self.piece }
    {
        let Held { tenant: _, piece } = self;
        piece
    }
}

impl Drop for Held {
    fn drop(self) {
        let Held { tenant: _, piece } = self;
        piece.discard();
    }
}
