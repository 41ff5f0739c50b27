ghost use Rattle.std.specs.Prelude.{◌≡◌, ◌<◌, ◌^◌};
ghost use Rattle.vub_trace.specs.Past.{IsWithin, past_after};

use crate::kind::Kind;

/// How much of a run the turns before have told.
#[derive(Clone, Copy, Debug, PartialEq, Eq)]
pub struct Past {
    /// How many turns there were.
    pub turns: usize,
    /// How many actions the guest did.
    pub acted: usize,
    /// How many requests were answered.
    pub answered: usize,
    /// How many calls of the device were made.
    pub called: usize,
    /// How many entries were taken.
    pub taken: usize,
    /// How many entries were used.
    pub used: usize,
}

/// Nothing, before the first turn.
pub const NONE_PAST: Past = Past {
    turns: 0,
    acted: 0,
    answered: 0,
    called: 0,
    taken: 0,
    used: 0,
};

/// How much is told after a turn of this kind.
pub fn past_after(past: Past, kind: Kind) -> Past
    requires within { IsWithin past }
    requires small { past.turns < 2 ^ 63 }
    ensures past { result ≡ past_after past kind }
    ensures within { IsWithin result }
{
    let past = Past {
        turns: past.turns + 1,
        ..past
    };
    match kind {
        Kind::Act => Past {
            acted: past.acted + 1,
            ..past
        },
        Kind::Answer => Past {
            answered: past.answered + 1,
            ..past
        },
        Kind::Call | Kind::Hear => Past {
            called: past.called + 1,
            ..past
        },
        Kind::Take => Past {
            taken: past.taken + 1,
            ..past
        },
        Kind::Use => Past {
            used: past.used + 1,
            ..past
        },
        _ => past,
    }
}
