//! The commands of the programs.
use crate::texts::{LOG_LAYOUTS, TAXI_LAYOUTS};
use outside::{LOG_SIZE, STORE_SIZE};

/// A command of a program: its words, those in capitals in the place of others; what it does, and what for; and an
/// example's words.
#[derive(Clone, Copy)]
pub(crate) struct Command {
    pub(crate) words: &'static [&'static str],
    pub(crate) does: &'static str,
    pub(crate) purpose: &'static str,
    pub(crate) example: &'static str,
}

/// A program: what it is called, its commands, those of them that find nothing to do without a sealed store, whether it
/// tells of faults of texts, its page, the layouts of its store that it reads, the store's name and its bytes.
#[derive(Clone, Copy)]
pub struct Program {
    pub(crate) name: &'static str,
    pub(crate) commands: &'static [Command],
    pub(crate) need_seal: &'static [&'static str],
    pub(crate) has_faults: bool,
    pub(crate) page: &'static str,
    pub(crate) layouts: &'static str,
    pub(crate) store: &'static str,
    pub(crate) size: u64,
}

/// The taximeter.
pub const TAXI: Program = Program {
    name: "taxi",
    commands: &[
        Command {
            words: &["check", "TARIFF"],
            does: "says whether a tariff is sound, or names its first fault",
            purpose: "write a tariff",
            example: "check examples/city.tariff",
        },
        Command {
            words: &["faults", "TARIFF"],
            does: "names every fault of a tariff, or says that it is sound",
            purpose: "write a tariff",
            example: "faults examples/city.tariff",
        },
        Command {
            words: &["form", "TARIFF"],
            does: "prints the printed form of a tariff, sound or not",
            purpose: "write a tariff",
            example: "form examples/city.tariff",
        },
        Command {
            words: &["tables", "TARIFF", "CONSTANT"],
            does: "prints the tables that the meter goes by",
            purpose: "write a tariff",
            example: "tables examples/simple.tariff 10000",
        },
        Command {
            words: &["lines", "TARIFF", "CONSTANT"],
            does: "says of each line when it is first the one that counts, or never",
            purpose: "write a tariff",
            example: "lines examples/city.tariff 10000",
        },
        Command {
            words: &["rates", "TARIFF", "CONSTANT"],
            does: "says how fine a constant is for each rate in mode S, and which ones next to it are fine",
            purpose: "write a tariff",
            example: "rates examples/city.tariff 2500",
        },
        Command {
            words: &["near", "TARIFF"],
            does: "prints the tariff with the nearest amounts for one pair of measures, so that it can be compiled",
            purpose: "write a tariff",
            example: "near examples/simple.tariff",
        },
        Command {
            words: &["compare", "TARIFF", "OTHER", "CONSTANT"],
            does: "prints what differs first between two tariffs, or SAME",
            purpose: "write a tariff",
            example: "compare examples/city.tariff examples/city_weekdays.tariff 10000",
        },
        Command {
            words: &["fare", "TARIFF", "DRIVE", "CONSTANT"],
            does: "prints the displays of a recorded drive, without a store",
            purpose: "see fares without a store",
            example: "fare examples/simple.tariff examples/standing.drive 10000",
        },
        Command {
            words: &["explain", "TARIFF", "DRIVE", "PARAMS"],
            does: "says why the fare of each hiring is what it is, without a store",
            purpose: "see fares without a store",
            example: "explain examples/city.tariff examples/morning.drive examples/taxi.params",
        },
        Command {
            words: &["story", "TARIFF", "DRIVE", "PARAMS"],
            does: "tells what happened in each hiring, moment by moment, without a store",
            purpose: "see fares without a store",
            example: "story examples/city.tariff examples/morning.drive examples/taxi.params",
        },
        Command {
            words: &["gen", "SEED", "N"],
            does: "makes a large drive of N trips and prints what it comes to",
            purpose: "see fares without a store",
            example: "gen 7 20",
        },
        Command {
            words: &["seal", "TARIFF", "PARAMS"],
            does: "seals the store taxi.store with a tariff and the secured parameters",
            purpose: "put a meter into service",
            example: "seal examples/city.tariff examples/taxi.params",
        },
        Command {
            words: &["sealed"],
            does: "prints what the store taxi.store was sealed with, as a text of parameters",
            purpose: "put a meter into service",
            example: "sealed",
        },
        Command {
            words: &["offsets", "RULES", "FROM", "TO"],
            does: "prints the offsets of local time for the years FROM to TO",
            purpose: "put a meter into service",
            example: "offsets examples/europe.rules 2026 2040",
        },
        Command {
            words: &["run", "TARIFF", "DRIVE"],
            does: "carries out a drive on the sealed store taxi.store",
            purpose: "drive",
            example: "run examples/city.tariff examples/morning.drive",
        },
        Command {
            words: &["totals"],
            does: "prints the totals of the store taxi.store",
            purpose: "ask the store",
            example: "totals",
        },
        Command {
            words: &["port", "REQUESTS"],
            does: "prints the replies to framed requests for stored data",
            purpose: "ask the store",
            example: "port <(xxd -r -p examples/port.requests)",
        },
        Command {
            words: &["mark", "on", "DRIVER"],
            does: "prints the mark of the store by which a driver signs on",
            purpose: "ask the store",
            example: "mark on ANNA",
        },
        Command {
            words: &["mark", "off"],
            does: "prints the mark of the store by which whoever is on signs off",
            purpose: "ask the store",
            example: "mark off",
        },
        Command {
            words: &["shifts", "BOOK"],
            does: "prints what a book of marks comes to, for each shift and driver",
            purpose: "ask the store",
            example: "shifts examples/morning.book",
        },
        Command {
            words: &["bench", "TARIFF", "DRIVE", "READINGS"],
            does: "judges readings taken at a meter by what a drive should come to",
            purpose: "verify a meter",
            example: "bench examples/city.tariff examples/morning.drive examples/morning.readings",
        },
    ],
    need_seal: &["run", "bench", "totals", "port", "mark", "shifts", "sealed"],
    has_faults: true,
    page: "docs/use/COMMANDS.md",
    layouts: TAXI_LAYOUTS,
    store: "taxi.store",
    size: STORE_SIZE as u64,
};

/// The hiring log.
pub const HIRING_LOG: Program = Program {
    name: "hiring_log",
    commands: &[
        Command {
            words: &["file", "ROLL"],
            does: "appends the receipts of a roll of printed output to the log taxi.log",
            purpose: "keep receipts",
            example: "file examples/torn.roll",
        },
        Command {
            words: &["show"],
            does: "prints the receipts of the log taxi.log, the oldest first",
            purpose: "keep receipts",
            example: "show",
        },
        Command {
            words: &["rows", "ROLL"],
            does: "prints the receipts of a roll as rows of CSV, without a log",
            purpose: "keep receipts",
            example: "rows examples/torn.roll",
        },
    ],
    need_seal: &[],
    has_faults: false,
    page: "docs/use/HIRING_LOG.md",
    layouts: LOG_LAYOUTS,
    store: "taxi.log",
    size: LOG_SIZE as u64,
};
