//! Which calls are to fail.
ghost use Rattle.std.specs.Prelude.{◌≡◌};
ghost use Rattle.hd_store.specs.Ahead.{later, behind_failure, is_next, is_down, reads_behind};

/// What is known of the calls to come, of one kind.
#[derive(Clone, Copy, Debug, PartialEq, Eq)]
pub enum Ahead {
    /// Nothing: it is a real device.
    Unknown,
    /// Each goes well.
    Well,
    /// So many go well, the next one fails, and after it each goes well.
    Fails(u64),
    /// So many go well, and in the next one the machine stops.
    Stops(u64),
    /// The machine has stopped: each fails, and none is begun.
    Down,
}

impl Ahead {
    /// Returns what is known after the next call.
    pub(crate) fn later(self) -> Ahead
        ensures { result ≡ later self }
    {
        match self {
            Ahead::Fails(0) => Ahead::Well,
            Ahead::Fails(n) => Ahead::Fails(n - 1),
            Ahead::Stops(0) => Ahead::Down,
            Ahead::Stops(n) => Ahead::Stops(n - 1),
            same => same,
        }
    }

    /// Returns what is known after a change that was begun and failed.
    pub(crate) fn behind_failure(self) -> Ahead
        ensures { result ≡ behind_failure self }
    {
        match self {
            Ahead::Unknown => Ahead::Down,
            known => known.later(),
        }
    }

    /// Reports whether the next call is one that fails although the device still runs.
    pub(crate) fn is_next(self) -> bool
        ensures { result ≡ is_next self }
    {
        matches!(self, Ahead::Fails(0) | Ahead::Stops(0))
    }

    /// Reports whether the machine has stopped.
    pub(crate) fn is_down(self) -> bool
        ensures { result ≡ is_down self }
    {
        matches!(self, Ahead::Down)
    }

    /// Returns what becomes of the reads to come where this is what is known of changes, and one is
    /// begun and fails.
    pub(crate) fn reads_behind(self, reads: Ahead) -> Ahead
        ensures { result ≡ reads_behind self reads }
    {
        match self {
            Ahead::Stops(_) | Ahead::Unknown => Ahead::Down,
            _ => reads,
        }
    }
}
