//! The tests of ranges and pieces, in order: of the layout and the range, and then of the flags.
ghost use Rattle.std.specs.Prelude.{◌≡◌, length, nat_lt};
ghost use Rattle.std.specs.List.{list_any};
ghost use Rattle.vub_block.specs.Answer.{greatest_flags, is_past, pieces_status};
ghost use Rattle.vub_block.specs.Request.{pieces_in};

use crate::erase::Erase;
use crate::request::{PIECE_LEN, Piece};
use crate::status::Status;

/// Whether so many sectors from this one on end past the end of a disk, also where they are none.
pub(crate) fn is_past(sectors: u64, first: u64, count: u64) -> bool
    ensures { result ≡ is_past sectors first count }
{
    match first.checked_add(count) {
        None => true,
        Some(end) => end > sectors,
    }
}

/// Whether the range of a piece ends past the end.
fn any_past(sectors: u64, pieces: &[Piece]) -> bool
    ensures { result ≡ list_any (λ p. is_past sectors p.first p.count) pieces.now }
{
    pieces.iter().any(|piece| is_past(sectors, piece.first, u64::from(piece.count)))
}

/// Whether a piece has flags that it may not have.
fn any_flagged(erase: Erase, pieces: &[Piece]) -> bool
    ensures { result ≡ list_any (λ p. nat_lt (greatest_flags erase) p.flags) pieces.now }
{
    let most = erase.greatest_flags();
    pieces.iter().any(|piece| piece.flags > most)
}

/// How DISCARD or WRITE_ZEROES of these pieces ends.
#[tactic(auto, unfolding(crate::specs::Answer::pieces_status))]
pub(crate) fn pieces_status(sectors: u64, erase: Erase, payload: &[u8], pieces: &[Piece]) -> Status
    requires { pieces.now ≡ pieces_in payload.now }
    ensures { result ≡ pieces_status erase sectors payload.now }
{
    if payload.is_empty() || payload.len() % PIECE_LEN != 0 || any_past(sectors, pieces) {
        return Status::IoErr;
    }
    if any_flagged(erase, pieces) {
        return Status::Unsupported;
    }
    Status::Ok
}
