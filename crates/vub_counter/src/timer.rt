ghost use Rattle.std.specs.Prelude.{◌≡◌, ◌<◌, ◌^◌, ◌-◌, None, min, MatchResult};
ghost use Rattle.std.specs.Duration.{as_nanos};
ghost use Rattle.vub_counter.specs.Timer.{CountsOnce, expiries, after_wait, set_timer, is_armed, interval_of};

use std::marker::Model;
use std::time::Duration;
use vub_event::HostError;

/// When an armed timer expires next, and how often after that, in nanoseconds; an interval of 0 is none.
#[derive(Clone, Copy, Debug)]
pub struct Armed {
    next: u128,
    interval: u128,
}

/// A timer: timerfd_create(2) over moments that are handed in. The moments of one timer are durations since one origin.
#[derive(Debug, Drop)]
pub struct TimerFd {
    armed: Option<Armed>,
}

impl Model for TimerFd {
    ghost use Rattle.std.specs.Prelude.{Option};
    ghost use Rattle.vub_counter.specs.declared.timer.Armed.{Armed};

    ghost Value = { Option Armed };

    ghost use Rattle.vub_counter.specs.Timer.{IsSmall};

    ghost view = { λ t. t.armed };

    ghost invariant = { λ t. IsSmall t.armed };
}

/// The length of a duration in nanoseconds.
fn nanoseconds(duration: Duration) -> u128
    ensures value { result ≡ as_nanos duration }
    ensures small { result < 2 ^ 94 }
{
    u128::from(duration.as_secs()) * 1_000_000_000 + u128::from(duration.subsec_nanos())
}

impl TimerFd {
    /// A timer that is not armed.
    pub fn new() -> TimerFd
        ensures { result ≡ None }
    {
        TimerFd { armed: None }
    }

    /// Sets the timer at the moment `now`: it expires after `dur`, and then after every `interval`. A `dur` of 0
    /// disarms it, and an `interval` of 0 is none. Expiries that were not waited for are dropped.
    pub fn reset(&mut self, now: Duration, dur: Duration, interval: Option<Duration>)
        ensures { self.new ≡ set_timer (as_nanos now) (as_nanos dur) (interval_of interval) }
    {
        self.armed = if dur.is_zero() {
            None
        } else {
            Some(Armed {
                next: nanoseconds(now.saturating_add(dur)),
                interval: match interval {
                    Some(interval) => nanoseconds(interval),
                    None => 0,
                },
            })
        };
    }

    /// How often it has expired up to `now` since the last wait, at most `u64::MAX`.
    ///
    /// # Errors
    /// WouldBlock where it has not.
    #[tactic(auto, using(crate::proofs::Timing::once_law))]
    pub fn wait(&mut self, now: Duration) -> Result<u64, HostError>
        ensures count { MatchResult result (λ n. (n ≡ min (expiries self.old (as_nanos now)) (2 ^ 64 - 1)) × (0 < n))
            (λ e. (e ≡ HostError.WouldBlock) × (expiries self.old (as_nanos now) ≡ 0)) }
        ensures after { self.new ≡ after_wait self.old (as_nanos now) }
        ensures once { CountsOnce self.old }
    {
        let now = nanoseconds(now);
        let Some(armed) = self.armed else {
            return Err(HostError::WouldBlock);
        };
        if now < armed.next {
            return Err(HostError::WouldBlock);
        }
        if armed.interval == 0 {
            self.armed = None;
            return Ok(1);
        }
        let past = now - armed.next;
        self.armed = Some(Armed {
            next: now - past % armed.interval + armed.interval,
            interval: armed.interval,
        });
        let before = past / armed.interval;
        if before < 0xffff_ffff_ffff_ffff {
            Ok(before as u64 + 1)
        } else {
            Ok(u64::MAX)
        }
    }

    /// Whether it has an expiry after `now`.
    pub fn is_armed(&self, now: Duration) -> bool
        ensures { result ≡ is_armed self.now (as_nanos now) }
    {
        match self.armed {
            Some(armed) => nanoseconds(now) < armed.next || armed.interval != 0,
            None => false,
        }
    }

    /// Disarms it. Expiries that were not waited for are dropped.
    pub fn clear(&mut self)
        ensures { self.new ≡ None }
    {
        self.armed = None;
    }
}
