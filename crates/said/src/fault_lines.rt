//! What the last line of a call says of a fault: of which file, and where.

/// The faults of a tariff that name a line.
const OF_A_LINE: [&str; 8] = [
    "Syntax",
    "Duplicate",
    "TooManyLines",
    "UnknownNumber",
    "LineAfterDefault",
    "BadDate",
    "AmountTooBig",
    "MeasureZero",
];

/// A fault at a place of a file: the place of the word that names it, what the fault is called, and the number of the
/// line or, of readings, of the row.
#[derive(Clone, Copy)]
pub(crate) struct Fault<'a> {
    pub(crate) word: usize,
    pub(crate) name: &'a str,
    pub(crate) number: u64,
    pub(crate) counts_rows: bool,
    pub(crate) wants_end: bool,
}

/// The place of the word that names the parameters of a command.
fn word_of_params(command: &str) -> usize {
    if command == "seal" { 2 } else { 3 }
}

/// The place of the word that names the file of a fault of a kind, if the fault names a line or a row.
fn word_of(command: &str, kind: &str, name: &str) -> Option<usize> {
    match kind {
        "TARIFF" if OF_A_LINE.contains(&name) => Some(1),
        "OTHER" if OF_A_LINE.contains(&name) => Some(2),
        "DRIVE" if name.is_empty() => Some(2),
        "PARAMS" => Some(word_of_params(command)),
        "READINGS" if name.is_empty() => Some(3),
        "RULES" if name == "BadLine" => Some(1),
        "BOOK" | "STAMPS" if name.is_empty() => Some(1),
        _ => None,
    }
}

/// The fault that a line names of a command's file, if it names a line or a row.
pub(crate) fn fault_in<'a>(command: &str, line: &'a str) -> Option<Fault<'a>> {
    let mut words = line.trim_end().split(' ');
    if words.next()? != "BAD" {
        return None;
    }
    let kind = words.next()?;
    let first = words.next()?;
    match words.next() {
        Some(last) => named_fault(command, kind, first, last),
        None => named_fault(command, kind, "", first),
    }
}

/// The fault of a kind with this name and number.
fn named_fault<'a>(command: &str, kind: &str, name: &'a str, number: &str) -> Option<Fault<'a>> {
    Some(Fault {
        word: word_of(command, kind, name)?,
        name,
        number: number.parse().ok()?,
        counts_rows: kind == "READINGS",
        wants_end: matches!(kind, "DRIVE" | "RULES" | "BOOK" | "STAMPS"),
    })
}
