//! What may be wrong with a tariff that has a text. All of it is this project's own.

/// What a condition may compare with a cut: the place of the day in a leap year, the minute of the day,
/// the distance of the trip or its time.
#[derive(Clone, Copy)]
pub enum Dimension {
    MonthDay,
    Minute,
    Distance,
    Time,
}

/// The faults of a tariff, in the order in which they are looked for. A fault that names a line names the first that
/// has it, by its number in the text.
#[derive(Clone, Copy)]
pub enum CheckFault {
    /// There is no `step` line.
    NoStep,
    /// The display step is 0.
    StepZero,
    /// A second `step`, `positions` or `zones` line, or a supplement's number or a holiday's date that an
    /// earlier line has.
    Duplicate(u32),
    /// The 65th line of a kind that may have a condition (`ChoiceKind`), or the 256th holiday.
    TooManyLines(u32),
    /// A condition names a tariff position or a zone that the tariff doesn't have.
    UnknownNumber(u32),
    /// Each rate has a condition.
    NoDefaultRate,
    /// Each initial hire fee has a condition.
    NoDefaultInitial,
    /// A line that may have a condition after one of its kind without one.
    LineAfterDefault(u32),
    /// A holiday that is no date of the years 2000 to 2199, or a month and date that no leap year has.
    BadDate(u32),
    /// An amount above the limit of its kind of line, 1,000,000 units or 99,999,999.
    AmountTooBig(u32),
    /// A measure of a rate or of an `after` is 0.
    MeasureZero(u32),
    /// The least common multiple of the measures of all rates is above 10^18.
    NoCommonMeasure,
    /// The first dimension that has too many cuts, and how many: above 63 for days and minutes, above 15 for distances
    /// and times.
    TooManyCuts(Dimension, u32),
    /// There are more than 64,512 cells, and how many.
    TooManyCells(u64),
    /// Memory ran out.
    NoMemory,
}
