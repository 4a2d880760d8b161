//! Who hears how far the entries of a journal are made again.

/// Every so many entries a listener is told.
const HEARD_EACH: usize = 1024;

/// Who hears how far the entries of a journal are made again.
pub trait Listener {
    /// Hears that `done` of `all` entries are made again.
    fn hear(&self, done: u64, all: u64);
}

/// A listener that does nothing.
#[derive(Clone, Copy, Debug, Drop)]
pub struct Unheard;

impl Listener for Unheard {
    fn hear(&self, _done: u64, _all: u64) {}
}

/// Reports a listener every so many entries how far they are.
pub(crate) fn tell<H: Listener>(heard: &H, done: usize, all: usize) {
    if done % HEARD_EACH == 0 {
        heard.hear(done as u64, all as u64);
    }
}
