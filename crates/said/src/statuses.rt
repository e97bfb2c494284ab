//! What a status means, and what to do.
use crate::table::Program;
use std::alloc::AllocError;

/// What the drive of a run that broke off may have come to.
const BROKEN_RUN: &str =
    "a part of the drive may have been carried out: compare taxi totals with the last whole receipt, \
the one with its END, and do not run the same drive again (docs/use/COMMANDS.md, \"A run that broke off\")";

/// What to do behind a sealing that failed.
const BROKEN_SEALING: &str =
    "the store may have the old seal or the new one: look at taxi sealed and taxi totals, then \
seal again";

/// What to do where a call of the board failed, given the command, whether the store was read before, and whether it is
/// there.
pub(crate) fn after_failure(command: &str, has_begun: bool, is_there: bool) -> &'static str {
    match command {
        "run" | "seal" | "file" if !has_begun => "nothing was begun; see to that and try again",
        "run" => BROKEN_RUN,
        "seal" if is_there => BROKEN_SEALING,
        "seal" => "there is no store; see to that and seal again",
        _ => "see to that and try again",
    }
}

/// What a status of the taximeter means, given the command; but of 1 and 8.
pub(crate) fn meaning(status: u8, command: &str) -> &'static str {
    match status {
        2 if command == "faults" => {
            "the tariff is refused for the faults above; docs/TARIFF.md says what each fault is"
        }
        2 => "the tariff is refused for the fault above; docs/TARIFF.md says what each fault is",
        3 if command == "run" => {
            "the drive has a line that is not allowed; mend it (docs/FORMATS.md); run has carried \
out the lines before it"
        }
        3 => "the drive has a line that is not allowed; mend it (docs/FORMATS.md)",
        4 => "this folder has no sealed store; taxi seal TARIFF PARAMS makes one",
        5 => {
            "taxi.store holds what no meter of this kind leaves; keep it as it is and see \
docs/use/COMMANDS.md, \"A store \
is damaged\""
        }
        6 => "this tariff is not the sealed one; take that one, or seal the store with this one",
        7 =>
            "a file that the words name is not there or cannot be read; see to its name and its permissions",
        9 =>
            "the parameters are refused for the fault above; docs/FORMATS.md says what each fault is",
        10 =>
            "the readings are refused for the row above; docs/FORMATS.md says what a row of them is",
        11 if command == "compare" => {
            "the tariffs differ: first in what stands above, with the line of each; further \
differences are not looked for"
        }
        11 => "a verdict is not PASS: a reading is too far off, missing, or one too many; look at \
those rows of the report",
        12 => "there was not enough memory, and nothing was written; try again with more",
        13 => "the store holds a trip; run a drive that ends it, and seal then",
        14 => "the store was sealed as often as it can be; begin a new folder",
        15 =>
            "the store counts money with other decimals than this tariff; write the tariff with those of the store",
        16 => "no request goes on so at the place above; docs/FORMATS.md says what a request is",
        17 => "the rules are refused for the fault above; docs/FORMATS.md says what each fault is",
        18 => "the text is no book beside this store; docs/use/SHIFT_BOOK.md says what a book is",
        _ => "the program ended with a status that no page explains",
    }
}

/// What a status of the hiring log means, given the command; but of 1 and 8.
pub(crate) fn meaning_of_log(status: u8, command: &str) -> &'static str {
    match status {
        5 if command == "rows" => {
            "the roll has 2^40 bytes or more; part it; the rows of the receipts that were read are printed"
        }
        7 if command == "rows" => {
            "the roll is not there or cannot be read; see to it; the rows of what was read of it are printed"
        }
        2 => "taxi.log has a damaged slot; keep a copy of it and see docs/STORE.md",
        3 => {
            "the receipts in taxi.log do not belong to one log; keep a copy, move the file away, \
and file the rolls again"
        }
        4 => {
            "the receipt at that place of the roll, counted from 1, is of another taxi; file it in \
the folder of that taxi"
        }
        5 =>
            "the roll has 2^40 bytes or more; part it; those of its receipts that were read are filed",
        7 =>
            "the roll is not there or cannot be read; see to it and file it again; what was read of it is filed",
        12 => "there was not enough memory, and nothing was filed; try again with more",
        _ => "the program ended with a status that no page explains",
    }
}

/// Appends the beginning of what is said of a status.
pub(crate) fn push_status(text: &mut String, name: &str, status: u8) -> Result<(), AllocError> {
    write!(text, "{name}: status {status}: ")
}

/// What is said of words that the system didn't hand over whole, given the status.
pub fn no_words(program: &Program, status: u8) -> &'static str {
    match (program.has_faults, status) {
        (true, 1) => "taxi: status 1: a word is no text in UTF-8\n",
        (true, _) => "taxi: status 12: there was not enough memory for the words\n",
        (false, 1) => "hiring_log: status 1: a word is no text in UTF-8\n",
        (false, _) => "hiring_log: status 12: there was not enough memory for the words\n",
    }
}
