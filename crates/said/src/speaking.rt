//! What is said behind a call.
use crate::places::Moment;
use crate::streams::{ERROR, kept_behind};
use crate::table::Program;
use crate::telling::{Call, told_of};
use crate::warnings::{second_of_date, warnings_of};
use outside::Printer;
use std::alloc::Global;
use std::env;
use std::io::{Eprint, IsTerminal};
use std::rt::{Clock, Env, Files};
use std::sync::ledger::Ledger;
use std::time::SystemTime;
use taxi_units::Steps;

/// The moment of now; that of 1970 if the system doesn't tell.
pub fn now_of<R: Clock>(rt: &R) -> Moment {
    let since = SystemTime::now(rt)
        .ok()
        .and_then(|now| now.duration_since(SystemTime::UNIX_EPOCH).ok());
    match since {
        Some(since) => Moment {
            seconds: since.as_secs(),
            nanoseconds: since.subsec_nanos(),
        },
        None => Moment {
            seconds: 0,
            nanoseconds: 0,
        },
    }
}

/// Whether what is to be minded behind a call that ended with 0 is left out.
pub fn is_quiet<R: Env + AllocGlobal>(rt: &R) -> bool {
    match env::var(rt, "TAXI_QUIET") {
        Ok(found) => found.as_str() == "1",
        Err(_) => false,
    }
}

/// The second of today: that of the date of TAXI_TODAY, or else of now.
fn today_of<R: Env + AllocGlobal>(rt: &R, now: Moment) -> u64 {
    match env::var(rt, "TAXI_TODAY") {
        Ok(date) => second_of_date(date.as_str()).unwrap_or(now.seconds),
        Err(_) => now.seconds,
    }
}

/// What is said on the standard error behind a call: what its status means, or behind one that ended with 0 what to
/// mind, but with TAXI_QUIET=1. None if there is nothing to say, or no memory to say it.
pub fn said_behind<R: Files + Env + AllocGlobal>(
    rt: &R,
    alloc: Global,
    program: &Program,
    call: &Call<'_>,
) -> Option<String> {
    if call.status != 0 {
        return told_of(rt, alloc, program, call);
    }
    if is_quiet(rt) {
        return None;
    }
    warnings_of(alloc, call.heard, call.command(), today_of(rt, call.began))
}

/// How many bytes are printed at once.
const PIECE: usize = 512;

/// Prints an answer on a device, which looks first where its outputs lead; gives the status.
pub fn print_answer<B: Printer<N, L>, const N: usize, L: Ledger>(
    text: &[u8],
    board: &mut B,
    steps: &mut Steps<L>,
) -> u8 {
    let mut rest = text;
    for _ in 0..text.len() {
        if rest.is_empty() {
            return 0;
        }
        let (piece, behind) = rest.split_at(rest.len().min(PIECE));
        if board.print(piece, steps).is_err() {
            return 8;
        }
        rest = behind;
    }
    0
}

/// Says a text on the standard error, unless that leads to a file that the programs keep. If the system doesn't tell
/// where it leads, a terminal alone is told.
pub fn say<R: Files + Eprint>(rt: &R, alloc: Global, error: &impl IsTerminal, text: &str) {
    if text.is_empty() {
        return;
    }
    let is_apart = match kept_behind(rt, alloc, ERROR) {
        Ok(kept) => kept.is_none(),
        Err(_) => error.is_terminal(),
    };
    if is_apart {
        let _ = eprint!(rt; "{text}");
    }
}
