//! What a watch asks of the machine.

/// The machine that a search runs on, as far as a watch asks for it.
pub trait Machine {
    /// Returns how many megabytes of memory the process has now, rounded down, if that is known.
    fn megabytes(&self) -> Option<u64>;

    /// Reports whether standard error is a terminal, where a line can be rewritten.
    fn is_terminal(&self) -> bool;
}
