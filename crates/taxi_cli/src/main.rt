//! The taximeter: the program.
#![tactic(auto)]

mod asked_again;
mod printed_text;

ghost use Rattle.std.specs.Prelude.{◌<◌, ◌≡◌};

use crate::asked_again::said_further;
use commands::{Row, row_in, taxi};
use outside::{FileBoard, HostFiles, program_words};
use said::{Asked, Call, TAXI, answer_asked, no_words, now_of, print_answer, said_behind, say};
use std::alloc::Global;
use std::marker::Brand;
use std::process::ExitCode;
use std::sync::ledger::{Blank, Ledger};
use taxi_units::Steps;

/// Carries out the words of the program, under its one counter of steps, and says behind it what there is to say.
fn status<L: Ledger>(rt: HostRuntime, blank: Blank) -> u8
    requires name { blank.name ≡ L.name }
    requires parts { blank.parts ≡ L.parts }
    requires some { 0 < blank.parts }
{
    let alloc = rt.alloc();
    let began = now_of(&rt);
    let mut steps: Steps<L> = Steps::open(blank);
    let words = match program_words(&rt) {
        Ok(words) => words,
        Err(status) => {
            say(&rt, alloc, &rt.stderr(), no_words(&TAXI, status));
            return status;
        }
    };
    let mut board = match row_in(words.as_slice()) {
        Some(Row::Seal | Row::Run) => FileBoard::to_write(rt, alloc),
        _ => FileBoard::to_read(rt, alloc),
    };
    let status = match answer_asked(&rt, alloc, &TAXI, words.as_slice()) {
        Some(Asked::Nothing(text)) => {
            say(&rt, alloc, &rt.stderr(), text.as_str());
            return 1;
        }
        Some(Asked::Answer(text)) => print_answer(text.as_bytes(), &mut board, &mut steps),
        None => {
            let mut files = HostFiles::new(rt, alloc, words.as_slice());
            taxi(alloc, words.as_slice(), &mut files, &mut board, &mut steps)
        }
    };
    let call = Call {
        words: words.as_slice(),
        status,
        heard: board.heard(),
        began,
    };
    speak(rt, alloc, &call, &mut steps);
    status
}

/// Says what there is to say behind a call.
fn speak<L: Ledger>(rt: HostRuntime, alloc: Global, call: &Call<'_>, steps: &mut Steps<L>) {
    if let Some(text) = said_behind(&rt, alloc, &TAXI, call) {
        say(&rt, alloc, &rt.stderr(), text.as_str());
    }
    if let Some(text) = said_further(rt, alloc, call, steps) {
        say(&rt, alloc, &rt.stderr(), text.as_str());
    }
}

fn main(rt: HostRuntime) -> ExitCode {
    ExitCode::from(status::<Brand>(rt, Blank::new(1)))
}
