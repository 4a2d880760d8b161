//! How a thread waits that has nothing to do.
use crate::waking::Bell;
use std::sync::Wait;
use std::thread;
use std::time::Duration;

/// How often a thread lets others run, before it sleeps.
const YIELDS: u32 = 256;

/// How long its first sleep is, in microseconds.
const FIRST_SLEEP: u64 = 16;

/// How many of its sleeps are of one length, before the next are twice as long. So a sleep is short
/// by the time that was waited before it: where 64 threads wait for one another in turn, what each
/// sleeps too long does not add up to ever longer sleeps.
const OF_ONE_LENGTH: u32 = 32;

/// How often the length is doubled.
const DOUBLINGS: u32 = 10;

/// The waits of a thread that has nothing to do: they grow, up to about 16 milliseconds, until it
/// has something to do again. Once it has waited for some milliseconds, it may be woken
/// ([`crate::Bells`]).
#[derive(Clone, Copy, Debug, Drop)]
pub struct Pause {
    waits: u32,
}

impl Pause {
    /// Returns no wait yet.
    pub fn new() -> Pause {
        Pause { waits: 0 }
    }

    /// Makes the next wait short again: there was something to do.
    pub fn reset(&mut self, bell: &Bell) {
        if self.waits > 0 {
            self.waits = 0;
            bell.rise();
        }
    }

    /// Waits, longer than the last time, or until the bell is rung; `holds` says whether the thread
    /// holds tickets.
    pub fn wait<R: Wait>(&mut self, rt: &R, bell: &Bell, holds: bool) {
        let sleeps = self.waits.saturating_sub(YIELDS);
        if self.waits < YIELDS {
            thread::yield_now();
        } else {
            let doublings = (sleeps / OF_ONE_LENGTH).min(DOUBLINGS);
            bell.sleep(rt, Duration::from_micros(FIRST_SLEEP << doublings));
        }
        if sleeps >= OF_ONE_LENGTH {
            bell.lie_down(holds);
        }
        self.waits = self.waits.saturating_add(1);
    }
}
