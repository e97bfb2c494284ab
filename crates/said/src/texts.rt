//! Texts of the help, made of the pages by tools/make/help.
use crate::fault_texts::{fault, refusal};
use crate::status_texts::{log_status, taxi_status};

/// What is said of something that one asks for: the names by which one asks, parted by bars, and the text.
#[derive(Clone, Copy)]
pub(crate) struct Topic {
    pub(crate) names: &'static str,
    pub(crate) text: &'static str,
}

/// What one may ask for.
#[derive(Clone, Copy)]
pub(crate) enum Kind {
    Command,
    TaxiStatus,
    LogStatus,
    Fault,
    Refusal,
}

/// Of each kind the thing at a place, from 0 on.
pub(crate) fn topic_at(kind: Kind, place: usize) -> Option<Topic> {
    match kind {
        Kind::Command => command(place),
        Kind::TaxiStatus => taxi_status(place),
        Kind::LogStatus => log_status(place),
        Kind::Fault => fault(place),
        Kind::Refusal => refusal(place),
    }
}

/// The version.
pub(crate) const VERSION: &str = "1.0.0";

/// The layouts of the store that are read.
pub(crate) const TAXI_LAYOUTS: &str = "taxi.store, totals of layout 1 or 2, seals of layout 1";

/// The layouts of the store that are read.
pub(crate) const LOG_LAYOUTS: &str = "taxi.log of layout 1";

/// The faults that texts may have.
pub(crate) const FAULTS: &str =
    "AmountTooBig, BAD BOOK, BAD DRIVE, BAD READINGS, BadDate, BadLine, BadValue, Duplicate, \
LineAfterDefault, MeasureZero, Missing, NoCommonMeasure, NoDefaultInitial, NoDefaultRate, \
NoStep, SameMonth, StepZero, Syntax, TooLong, TooManyCells, TooManyCuts, TooManyLines, Twice, \
Unknown, UnknownNumber";

/// A command of the taximeter, told further.
fn command_0() -> Topic {
    Topic {
        names: "check",
        text: "Says whether a tariff is sound, or names its first fault.\n",
    }
}

/// A command of the taximeter, told further.
fn command_1() -> Topic {
    Topic {
        names: "faults",
        text: "Names every fault of a tariff, and shows each line at fault on standard error:\n",
    }
}

/// A command of the taximeter, told further.
fn command_2() -> Topic {
    Topic {
        names: "form",
        text: "Prints the one printed form of a tariff, sound or not, without comments.\n",
    }
}

/// A command of the taximeter, told further.
fn command_3() -> Topic {
    Topic {
        names: "tables",
        text: "Prints the numbers that the meter goes by (docs/TARIFF.md, \"The tables\"). CONSTANT is the \
pulses of\na kilometre, 500 to 200000.\n",
    }
}

/// A command of the taximeter, told further.
fn command_4() -> Topic {
    Topic {
        names: "lines",
        text: "Says when each line that may have a condition is first the one that counts, or never\n\
(docs/TARIFF.md, \"Lines that never hold\").\n",
    }
}

/// A command of the taximeter, told further.
fn command_5() -> Topic {
    Topic {
        names: "rates",
        text: "Says how fine a constant is for each rate in mode S: its cross-over speed in metres an hour, \
the\npulses of an interval of 0.1 s at it, and the most that an even speed is charged too much, \
in\npercent (docs/METER.md, \"How fine mode S is\"). The last line has the nearest constants, \
down and up,\nunder which that is at most 10 percent for all rates.\n",
    }
}

/// A command of the taximeter, told further.
fn command_6() -> Topic {
    Topic {
        names: "near",
        text: "Prints the same tariff by the nearest amounts for one pair of measures, the same for all rates. \
A\ntariff whose measures have nothing in common, as a town's mostly have, can't be compiled\n\
(NoCommonMeasure); what near prints of it can be. The first line, a comment, says how far an \
amount\nis off, at most. docs/TARIFF.md, \"Rates\", says what that is on a fare, and \
docs/CITIES.md has one of\nLondon's kind.\n",
    }
}

/// A command of the taximeter, told further.
fn command_7() -> Topic {
    Topic {
        names: "compare",
        text: "Prints SAME, or what differs first between two tariffs under a constant, with the line of each\n\
(docs/TARIFF.md, \"Two tariffs that are the same\"):\n",
    }
}

/// A command of the taximeter, told further.
fn command_8() -> Topic {
    Topic {
        names: "fare",
        text: "Prints the displays and refusals of a drive, without a store: in mode S, with trips held for 60 \
s,\nand local time as UTC.\n",
    }
}

/// A command of the taximeter, told further.
fn command_9() -> Topic {
    Topic {
        names: "seal",
        text: "Seals taxi.store with a tariff and the secured parameters, and prints the number of the seal. \
If\nthere is no store it makes one, with totals of zero; otherwise the totals stay.\nWhat a \
sealing changes. Only a held trip and other decimals stop a sealing, so the totals of one\ntaxi \
may go on as another's. taxi names each parameter that differs, and the tariff. A receipt \
shows\ntaxi, constant, day of securing and the tariff's digest, but not the mode, the hold, the \
offsets or\nthe seal's number. No command says what an earlier seal was, so keep what taxi \
sealed prints.\nA coarse constant. taxi names each rate under which an even speed can cost over \
ten percent too much\n(docs/METER.md, \"How fine mode S is\").\nAt 8 the store has the old seal \
or the new one, and its totals.\n",
    }
}

/// A command of the taximeter, told further.
fn command_10() -> Topic {
    Topic {
        names: "run",
        text: "Carries out a drive on the sealed store: prints displays, refusals and receipts, and keeps \
entries\nand held trips. The tariff has to be the sealed one. Run twice, a drive counts twice; \
in a fleet\ntools/fleet run refuses that.\nAt 3 and 7 the lines before the fault were carried \
out, and then the supply drops, as at the end of\na drive. At 8 the store has what was committed \
up to there. run .. | head ends with 8 and loses the\nrest of the drive, so print to a file.\n",
    }
}

/// A command of the taximeter, told further.
fn command_11() -> Topic {
    Topic {
        names: "bench",
        text: "Judges the readings that were taken at a meter by what a drive should come to under the seal, \
with a\nverdict for each hiring.\n",
    }
}

/// A command of the taximeter, told further.
fn command_12() -> Topic {
    Topic {
        names: "explain",
        text: "Says why the fare of each hiring that a drive closes is what it is: which lines counted, what \
each\ncharged by distance and by time, what was free. PARAMS is a text of parameters, or what \
sealed\nprinted. A trip that is still held isn't explained.\n",
    }
}

/// A command of the taximeter, told further.
fn command_13() -> Topic {
    Topic {
        names: "story",
        text: "Tells what happened in each hiring that a drive closes: which line charged from when, stops, \
keys,\nrefusals, displays, losses of supply, and a clock that was moved in the trip. The files \
are those of\nexplain.\n",
    }
}

/// A command of the taximeter, told further.
fn command_14() -> Topic {
    Topic {
        names: "totals",
        text: "Prints the totals of the store, whether it holds a trip, its layout, and the shares of each \
tariff\nposition.\n",
    }
}

/// A command of the taximeter, told further.
fn command_15() -> Topic {
    Topic {
        names: "sealed",
        text: "Prints what the store was sealed with, as a text of parameters with which another meter can be\n\
sealed.\n",
    }
}

/// A command of the taximeter, told further.
fn command_16() -> Topic {
    Topic {
        names: "port",
        text: "Answers framed requests for stored data, in bytes (docs/use/DATA_PORT.md).\n",
    }
}

/// A command of the taximeter, told further.
fn command_17() -> Topic {
    Topic {
        names: "gen",
        text: "Makes a large drive of N trips from a number, carries it out on a store in memory, and prints \
what\nit comes to. Use it to try a build.\n",
    }
}

/// A command of the taximeter, told further.
fn command_18() -> Topic {
    Topic {
        names: "offsets",
        text: "Prints the offset lines of parameters for at most fifteen years, from a yearly rule for summer \
time.\n",
    }
}

/// A command of the taximeter, told further.
fn command_19() -> Topic {
    Topic {
        names: "mark",
        text: "Print the mark by which a driver signs on, or whoever is on signs off.\n",
    }
}

/// A command of the taximeter, told further.
fn command_20() -> Topic {
    Topic {
        names: "shifts",
        text: "Prints what the totals grew by in each shift of a book of marks (docs/use/SHIFT_BOOK.md).\n",
    }
}

/// Each of these by its place.
pub(crate) fn command(place: usize) -> Option<Topic> {
    match place {
        0 => Some(command_0()),
        1 => Some(command_1()),
        2 => Some(command_2()),
        3 => Some(command_3()),
        4 => Some(command_4()),
        5 => Some(command_5()),
        6 => Some(command_6()),
        7 => Some(command_7()),
        8 => Some(command_8()),
        9 => Some(command_9()),
        10 => Some(command_10()),
        11 => Some(command_11()),
        12 => Some(command_12()),
        13 => Some(command_13()),
        14 => Some(command_14()),
        15 => Some(command_15()),
        16 => Some(command_16()),
        17 => Some(command_17()),
        18 => Some(command_18()),
        19 => Some(command_19()),
        20 => Some(command_20()),
        _ => None,
    }
}
