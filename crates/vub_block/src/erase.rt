ghost use Rattle.std.specs.Prelude.{◌≡◌};
ghost use Rattle.vub_block.specs.Answer.{greatest_flags, makes_holes};

use crate::request::Piece;

/// The two requests that take ranges of sectors.
#[derive(Clone, Copy, Debug, PartialEq, Eq)]
pub enum Erase {
    /// DISCARD: the sectors become holes.
    Discard,
    /// WRITE_ZEROES: the sectors become bytes 0, or holes where the flags say that they may (flag 1, `unmap`).
    WriteZeroes,
}

impl Erase {
    /// The greatest flags that a piece may have.
    pub fn greatest_flags(self) -> u32
        ensures { result ≡ greatest_flags self }
    {
        match self {
            Erase::Discard => 0,
            Erase::WriteZeroes => 1,
        }
    }

    /// Whether the range of a piece becomes holes, and else bytes 0.
    pub fn makes_holes(self, piece: Piece) -> bool
        ensures { result ≡ makes_holes self piece }
    {
        match self {
            Erase::Discard => true,
            Erase::WriteZeroes => piece.flags == 1,
        }
    }
}
