//! What a line of a schedule says.

ghost use Rattle.std.specs.Prelude.{◌≡◌, IfOk, map};
ghost use Rattle.std.specs.Str.{bytes_eq};
ghost use Rattle.hd_world.specs.MoveWords.{is_blank, words_of};
ghost use Rattle.hd_world.specs.Schedule.{begins_comment, lone_move, worker_move, stop_of, expand_of, pair_move, stopped_move, move_of, said_of};

use crate::moves::{Move, StopAt};
use crate::schedule_number::{byte_of, number_of};
use hd_base::NoMemory;
use std::alloc::Global;

/// What a line says.
#[derive(Clone, Copy)]
pub enum Said {
    Silent,
    Move(Move),
    Bad,
}

/// Reports whether the byte stands between words.
fn is_blank(byte: u8) -> bool
    ensures { result ≡ is_blank byte }
{
    matches!(byte, b' ' | b'\t' | b'\r')
}

/// Returns the words of a line, in order.
fn words_of(alloc: Global, line: &[u8]) -> Result<Vec<&[u8]>, NoMemory>
    ensures { IfOk result (λ words. map (λ word. word.now) words.items ≡ words_of line.now) }
{
    line.split(|byte| is_blank(*byte))
        .filter(|part| !part.is_empty())
        .collect(alloc)
}

/// Reports whether the word is this text.
fn is(word: &[u8], text: &str) -> bool
    ensures { result ≡ bytes_eq word.now text.now }
{
    word == text.as_bytes()
}

/// Returns the move that is a name alone.
fn lone_move(name: &[u8]) -> Option<Move>
    ensures { result ≡ lone_move name.now }
{
    if is(name, "pull") {
        Some(Move::Pull)
    } else if is(name, "flush") {
        Some(Move::Flush)
    } else if is(name, "ack") {
        Some(Move::Ack)
    } else {
        None
    }
}

/// Returns the move of a name and a worker's number, or for `resume` the number of workers.
fn worker_move(name: &[u8], worker: u32) -> Option<Move>
    ensures { result ≡ worker_move name.now worker }
{
    if is(name, "resume") {
        Some(Move::Resume {
            workers: worker,
            stop: None,
        })
    } else if is(name, "pop") {
        Some(Move::Pop { worker })
    } else if is(name, "take") {
        Some(Move::Take { worker })
    } else if is(name, "commit") {
        Some(Move::Commit { worker })
    } else if is(name, "redeem") {
        Some(Move::Redeem { worker })
    } else if is(name, "push") {
        Some(Move::Push { worker })
    } else if is(name, "offer") {
        Some(Move::Offer { worker })
    } else if is(name, "load") {
        Some(Move::Load { worker })
    } else {
        None
    }
}

/// Returns the stop that a call's number and a byte say.
fn stop_of(call: &[u8], byte: &[u8]) -> Option<StopAt>
    ensures { result ≡ stop_of call.now byte.now }
{
    let call = number_of(call)?;
    let byte = byte_of(byte)?;
    Some(StopAt { call, byte })
}

/// Returns the expansion that a worker's number and a place say.
fn expand_of(worker: &[u8], place: &[u8]) -> Option<Move>
    ensures { result ≡ expand_of worker.now place.now }
{
    let worker = number_of(worker)?;
    let place = number_of(place)?;
    Some(Move::Expand { worker, place })
}

/// Returns the move of a name and two words.
fn pair_move(name: &[u8], first: &[u8], second: &[u8]) -> Option<Move>
    ensures { result ≡ pair_move name.now first.now second.now }
{
    if is(name, "expand") {
        expand_of(first, second)
    } else if is(name, "stop") {
        Some(Move::Stop(stop_of(first, second)?))
    } else {
        None
    }
}

/// Returns the move of a name and three words: a resumption with a stop.
fn stopped_move(name: &[u8], workers: &[u8], call: &[u8], byte: &[u8]) -> Option<Move>
    ensures { result ≡ stopped_move name.now workers.now call.now byte.now }
{
    if !is(name, "resume") {
        return None;
    }
    let workers = number_of(workers)?;
    let stop = stop_of(call, byte)?;
    Some(Move::Resume {
        workers,
        stop: Some(stop),
    })
}

/// Returns the move that these words are, if they are one.
fn move_of(words: &[&[u8]]) -> Option<Move>
    ensures { result ≡ move_of (map (λ word. word.now) words.now) }
{
    match words {
        [name] => lone_move(name),
        [name, worker] => worker_move(name, number_of(worker)?),
        [name, first, second] => pair_move(name, first, second),
        [name, workers, call, byte] => stopped_move(name, workers, call, byte),
        _ => None,
    }
}

/// Reports whether the word begins a comment, which goes on to the end of the line.
fn begins_comment(word: &[u8]) -> bool
    ensures { result ≡ begins_comment word.now }
{
    matches!(word, [b';', ..])
}

/// Returns what this line says.
#[tactic(auto, unfolding(crate::specs::Schedule::said_of))]
pub fn said_of(alloc: Global, line: &[u8]) -> Result<Said, NoMemory>
    ensures { IfOk result (λ said. said ≡ said_of line.now) }
{
    let words = words_of(alloc, line)?;
    let Some(first) = words.first() else {
        return Ok(Said::Silent);
    };
    if begins_comment(first) {
        return Ok(Said::Silent);
    }
    match move_of(&words) {
        Some(step) => Ok(Said::Move(step)),
        None => Ok(Said::Bad),
    }
}
