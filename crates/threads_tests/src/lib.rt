//! Tests what only threads show: of searches, and of what their threads share.
//!
//! Two workers expand at the same time, and each of four workers settles as many nodes as it
//! owns (`src/gates.rt`). Two workers resume after each call that fails or stops
//! (`src/devices.rt`), and after a refusal of memory (`src/refused.rt`). A book comes back from its
//! lock (`src/gathered.rt`). Progress lines follow a clock that the test sets (`src/watched.rt`).
//!
//! One thread takes a lock with two passes (`src/alone.rt`), and four threads write through one
//! lock (`src/together.rt`). Two workers send letters to each other (`src/mail.rt`). The bound is
//! the least offer (`src/bound.rt`). The locked value is a diary with a log (`src/diary.rt`).
//!
//! Each test is a `#[test]` function. Start at `src/tasks.rt`, then `src/gates.rt`.
#![tactic(auto)]

#[cfg(test)]
mod alone;
#[cfg(test)]
mod bound;
#[cfg(test)]
mod devices;
#[cfg(test)]
mod diary;
#[cfg(test)]
mod gates;
#[cfg(test)]
mod gathered;
#[cfg(test)]
mod mail;
#[cfg(test)]
mod refused;
#[cfg(test)]
mod tasks;
#[cfg(test)]
mod together;
#[cfg(test)]
mod watched;
