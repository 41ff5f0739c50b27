ghost use Rattle.std.specs.Prelude.{◌≡◌, nat_le, length, is_none};
ghost use Rattle.vub_script.specs.Script.{content_len, content_total, are_turns_within, is_within};

use crate::draft::{Draft, ObjectDraft};
use thiserror::Error;

/// The greatest number of bytes in all contents and logs of a script together.
const CONTENT_LIMIT: u64 = 67_108_864;

/// The greatest number of turns of a script.
const TURN_LIMIT: u64 = 4_194_304;

/// A limit that a draft is past, with the number that is too great.
#[derive(Clone, Copy, Debug, PartialEq, Eq, Error)]
pub enum Limit {
    /// The bytes of all contents together.
    #[error("the contents have {0} bytes together, and at most 67108864 are allowed")]
    Contents(u128),
    /// The turns: those that are listed and those of the rounds.
    #[error("there are {0} turns, and at most 4194304 are allowed")]
    Turns(u128),
}

fn content_len_of(object: &ObjectDraft) -> u64
    ensures { result ≡ content_len object.now }
{
    match object {
        ObjectDraft::Event { .. } => 0,
        ObjectDraft::Zeros { length } => *length,
        ObjectDraft::Content(bytes) => bytes.as_slice().len() as u64,
        ObjectDraft::Log { len } => *len as u64,
    }
}

fn do_contents_fit(objects: &[ObjectDraft]) -> bool
    ensures { result ≡ nat_le (content_total objects.now) 67108864 }
{
    let mut left = CONTENT_LIMIT;
    for object in objects {
        let length = content_len_of(object);
        if length > left {
            return false;
        }
        left -= length;
    }
    true
}

/// Whether so many turns in a list and so many rounds are within the limit, where one round is a turn of the guest,
/// of the control party and of each worker.
fn do_turns_fit(listed: u64, rounds: u64, workers: u64) -> bool
    ensures { result ≡ are_turns_within listed rounds workers }
{
    if listed > TURN_LIMIT {
        return false;
    }
    rounds == 0 || (workers <= TURN_LIMIT && rounds <= (TURN_LIMIT - listed) / (workers + 2))
}

/// Whether the limits on contents and logs (67108864 bytes together) and turns (4194304) hold.
#[tactic(auto, unfolding(crate::specs::Script::is_within))]
pub fn is_within_limits(draft: &Draft) -> bool
    ensures { result ≡ is_within draft.now }
{
    do_contents_fit(draft.objects.as_slice())
        && do_turns_fit(
            draft.listed.len() as u64,
            draft.rounds,
            draft.device.masks.len() as u64,
        )
}

/// The bytes of all these contents together.
fn content_total(objects: &[ObjectDraft]) -> u128 {
    let mut total: u128 = 0;
    for object in objects {
        total = total.saturating_add(u128::from(content_len_of(object)));
    }
    total
}

/// The turns of a draft.
fn turn_total(draft: &Draft) -> u128 {
    let round = (draft.device.masks.len() as u128).saturating_add(2);
    u128::from(draft.rounds)
        .saturating_mul(round)
        .saturating_add(draft.listed.len() as u128)
}

/// The first limit that a draft is past.
fn first_passed(draft: &Draft) -> Limit {
    let contents = content_total(draft.objects.as_slice());
    if contents > u128::from(CONTENT_LIMIT) {
        Limit::Contents(contents)
    } else {
        Limit::Turns(turn_total(draft))
    }
}

/// The first limit that a draft is past: contents before turns. There is none exactly where it is within the limits.
pub fn limit_passed(draft: &Draft) -> Option<Limit>
    ensures { is_none result ≡ is_within draft.now }
{
    if is_within_limits(draft) {
        None
    } else {
        Some(first_passed(draft))
    }
}
