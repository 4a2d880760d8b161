//! Tickets that are out.

/// A ticket that is out: the numbers of its batch's entries, from `first` on and below `end`, and
/// what it releases.
#[derive(Debug, Drop)]
pub struct Outgoing<R> {
    pub first: u64,
    pub end: u64,
    pub released: R,
}
