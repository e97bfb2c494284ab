//! The hiring log: the program.
#![tactic(auto)]

mod passed;

ghost use Rattle.std.specs.Prelude.{◌<◌, ◌≡◌};

use crate::passed::said_of_passed;
use log_commands::{Call, call_in, keep_log};
use outside::{FileLog, HostFiles, program_words};
use said::{Asked, HIRING_LOG, answer_asked, no_words, now_of, print_answer, said_behind, say};
use std::alloc::Global;
use std::marker::Brand;
use std::process::ExitCode;
use std::sync::ledger::{Blank, Ledger};
use taxi_units::Steps;

/// Files a roll or shows the log, as the words of the program say, under its one counter of steps, and says behind it
/// what there is to say.
fn status<L: Ledger>(rt: HostRuntime, blank: Blank) -> u8
    requires name { blank.name ≡ L.name }
    requires parts { blank.parts ≡ L.parts }
    requires some { 0 < blank.parts }
{
    let alloc = rt.alloc();
    let began = now_of(&rt);
    let mut steps: Steps<L> = Steps::open(blank);
    let words = match program_words(&rt) {
        Ok(words) => words,
        Err(status) => {
            say(&rt, alloc, &rt.stderr(), no_words(&HIRING_LOG, status));
            return status;
        }
    };
    let mut log = match call_in(words.as_slice()) {
        Some(Call::File) => FileLog::to_write(rt, alloc),
        _ => FileLog::to_read(rt, alloc),
    };
    let status = match answer_asked(&rt, alloc, &HIRING_LOG, words.as_slice()) {
        Some(Asked::Nothing(text)) => {
            say(&rt, alloc, &rt.stderr(), text.as_str());
            return 1;
        }
        Some(Asked::Answer(text)) => print_answer(text.as_bytes(), &mut log, &mut steps),
        None => {
            let mut files = HostFiles::new(rt, alloc, words.as_slice());
            keep_log(words.as_slice(), &mut files, &mut log, &mut steps)
        }
    };
    let call = said::Call {
        words: words.as_slice(),
        status,
        heard: log.heard(),
        began,
    };
    speak(rt, alloc, &call);
    status
}

/// Says what there is to say behind a call.
fn speak(rt: HostRuntime, alloc: Global, call: &said::Call<'_>) {
    if let Some(text) = said_behind(&rt, alloc, &HIRING_LOG, call) {
        say(&rt, alloc, &rt.stderr(), text.as_str());
    }
    if let Some(text) = said_of_passed(rt, alloc, call) {
        say(&rt, alloc, &rt.stderr(), text.as_str());
    }
}

fn main(rt: HostRuntime) -> ExitCode {
    ExitCode::from(status::<Brand>(rt, Blank::new(1)))
}
