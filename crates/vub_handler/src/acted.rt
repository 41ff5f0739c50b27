ghost use Rattle.std.specs.Prelude.{◌≡◌, false};

use vub_plan::Turn;

/// What a small step has made.
#[derive(Debug, Drop)]
pub enum Acted {
    /// Nothing, since an entry is in flight.
    Waits,
    /// It was made: what it makes of the rest of its plan, and whether the device refused its call.
    Made { turn: Turn, refused: bool },
}

/// A step that asks no device was made.
pub(crate) fn made(turn: Turn) -> Acted
    ensures { result ≡ Acted.Made turn false }
{
    Acted::Made {
        turn,
        refused: false,
    }
}
