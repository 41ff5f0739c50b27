//! Counters that several threads may raise.
use std::sync::atomic::{AtomicU64, Ordering};

/// A counter of events.
pub trait Metric {
    /// Adds `value` to the counter.
    fn add(&self, value: u64);

    /// Adds 1 to the counter.
    fn inc(&self) {
        self.add(1);
    }

    /// The counter's value.
    fn count(&self) -> u64;

    /// Sets the counter to 0.
    fn reset(&self);

    /// Sets the counter to `value`.
    fn set(&self, value: u64);
}

impl Metric for AtomicU64 {
    /// Adds `value`; past `u64::MAX` the counter goes on from 0.
    fn add(&self, value: u64) {
        self.fetch_add(value, Ordering::SeqCst);
    }

    fn count(&self) -> u64 {
        self.load(Ordering::SeqCst)
    }

    fn reset(&self) {
        self.store(0, Ordering::SeqCst);
    }

    fn set(&self, value: u64) {
        self.store(value, Ordering::SeqCst);
    }
}
