//! How many whole receipts of a roll a filing has passed over.
use log_commands::{Roll, RollEnd};
use outside::HostFiles;
use said::{Call, is_quiet, is_unchanged, passed_over};
use std::alloc::Global;

/// What is said behind a filing that ended with 0 of the receipts that it passed over. None if there are none, or no
/// memory for it.
pub(crate) fn said_of_passed(rt: HostRuntime, alloc: Global, call: &Call<'_>) -> Option<String> {
    let command = call.words.first()?.as_str();
    let roll = call.words.get(1)?.as_str();
    if command != "file" || call.status != 0 || is_quiet(&rt) {
        return None;
    }
    if !is_unchanged(&rt, roll, call.began) {
        return passed_over(alloc, call.heard, None);
    }
    let count = receipts_in(rt, alloc, call.words);
    if is_unchanged(&rt, roll, call.began) {
        passed_over(alloc, call.heard, count)
    } else {
        passed_over(alloc, call.heard, None)
    }
}

/// How many whole receipts the roll of word 1 has, if all of it can be read.
fn receipts_in(rt: HostRuntime, alloc: Global, words: &[String]) -> Option<u64> {
    let mut files = HostFiles::new(rt, alloc, words);
    let mut roll = Roll::new();
    let mut count = 0u64;
    for _ in 0..u64::MAX {
        match roll.next(&mut files, 1) {
            Ok(_) => count = count.saturating_add(1),
            Err(RollEnd::Whole) => return Some(count),
            Err(_) => return None,
        }
    }
    None
}
