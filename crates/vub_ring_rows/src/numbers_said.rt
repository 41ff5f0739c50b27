//! The numbers that a call on a pending set said, for tests.
use vub_ring::PendSaid;

/// The first five numbers that were said, from the least up. A call that says Done has none.
pub(crate) fn numbers_said(said: PendSaid) -> [Option<u32>; 5] {
    let PendSaid::All(mut numbers) = said else {
        return [None; 5];
    };
    [
        numbers.take_first(),
        numbers.take_first(),
        numbers.take_first(),
        numbers.take_first(),
        numbers.take_first(),
    ]
}
