//! The last lines of the program.
ghost use Rattle.std.specs.Prelude.{[], ℕ, ◌++◌, ◌+◌, ◌≡◌, ◌≤◌, None, Some, codes, length};
ghost use Rattle.{arrayvec.specs.ArrayVec.{array_vec_len}, taxi_units.specs.Line.{line_size}};
ghost use Rattle.tariff_check.specs.declared.fault.CheckFault.TheVariants.{TooManyCuts};
ghost use Rattle.call_ends.specs.LastLine.{bad_params_line, bad_rules_line, bad_tariff_line, fault_text, line_of};
ghost use Rattle.call_ends.specs.LastLine.{name_text, numbered, other_decimals_line, param_fault_text, refusal_text};
ghost use Rattle.call_ends.specs.LastLine.{same_number_line, sound_line, wrong_tariff_line};

use crate::ending::Ended;
use crate::number_line::push_number_line;
use crate::tariff::Refusal;
use offset_rules::RuleFault;
use receipt_text::push_hex;
use seal_record::{Name, ParamFault};
use tariff_check::{CheckFault, Dimension};
use taxi_units::{Line, push_bytes, push_number};

/// The last line, which is empty if the end has none.
pub fn last_line(ended: Ended) -> Line
    ensures { result.items ≡ line_of ended }
{
    let mut line = Line::new();
    match ended {
        Ended::Done => {}
        Ended::Sound(cells, measure) => push_sound(&mut line, cells, measure),
        Ended::BadWords => push_bytes(&mut line, b"BAD WORDS\n"),
        Ended::BadTariff(why) => push_bad(&mut line, b"BAD TARIFF ", why),
        Ended::BadOther(why) => push_bad(&mut line, b"BAD OTHER ", why),
        Ended::NotSealed => push_bytes(&mut line, b"NOT SEALED\n"),
        Ended::BadSlot(slot) => push_number_line(&mut line, b"BAD STORE ", slot as u64),
        Ended::SameNumber(first, second) => push_same_number(&mut line, first, second),
        Ended::BadTrip => push_bytes(&mut line, b"BAD STORE TRIP\n"),
        Ended::WrongTariff(digest, own) => push_wrong_tariff(&mut line, &digest, &own),
        Ended::TripHeld => push_bytes(&mut line, b"TRIP HELD\n"),
        Ended::SealEnded => push_bytes(&mut line, b"SEAL ENDED\n"),
        Ended::OtherDecimals(found, own) => push_other_decimals(&mut line, found, own),
        Ended::BadParams(fault) => push_bad_params(&mut line, fault),
        Ended::Sealed(number) => push_number_line(&mut line, b"SEALED ", number),
        Ended::BadFrame(place) => push_number_line(&mut line, b"BAD FRAME ", place),
        Ended::EndlessRequests => push_bytes(&mut line, b"BAD FRAME TOO LONG\n"),
        Ended::BadReadings(number) => push_number_line(&mut line, b"BAD READINGS ", number),
        Ended::LongReadings => push_bytes(&mut line, b"BAD READINGS TOO LONG\n"),
        Ended::NotPassed => {}
        Ended::Different => {}
        Ended::Faulty => {}
        Ended::BadRules(fault) => push_bad_rules(&mut line, fault),
        Ended::LongBook => push_bytes(&mut line, b"BAD BOOK TOO LONG\n"),
        Ended::BadBook(number) => push_number_line(&mut line, b"BAD BOOK ", number),
        Ended::BadDrive(number) => push_number_line(&mut line, b"BAD DRIVE ", number),
        Ended::EndlessDrive => push_bytes(&mut line, b"BAD DRIVE TOO LONG\n"),
        Ended::ReadFault => push_bytes(&mut line, b"READ FAULT\n"),
        Ended::BoardFault => {}
        Ended::NoMemory => push_bytes(&mut line, b"NO MEMORY\n"),
    }
    line
}

/// The last line for a tariff that isn't accepted.
pub fn bad_tariff_line(why: Refusal) -> Line
    ensures { result.items ≡ bad_tariff_line why }
{
    let mut line = Line::new();
    push_bad(&mut line, b"BAD TARIFF ", why);
    line
}

/// Appends the line of a sound tariff.
fn push_sound(line: &mut Line, cells: u64, measure: u64)
    requires { line.old.items ≡ [] }
    ensures { line.new.items ≡ sound_line cells measure }
{
    push_bytes(line, b"OK CELLS ");
    push_number(line, cells as u128);
    push_bytes(line, b" MEASURE ");
    push_number(line, measure as u128);
    push_bytes(line, b"\n");
}

/// Appends the line of a tariff that isn't accepted, behind a name.
fn push_bad(line: &mut Line, name: &[u8], why: Refusal)
    requires empty { line.old.items ≡ [] }
    requires short { length name.now ≤ 20 }
    ensures { line.new.items ≡ name.now ++ (refusal_text why ++ codes "\n") }
{
    push_bytes(line, name);
    push_refusal(line, why);
    push_bytes(line, b"\n");
}

/// Appends why a tariff isn't accepted.
fn push_refusal(line: &mut Line, why: Refusal)
    requires { array_vec_len line.old + 80 ≤ line_size }
    ensures text { line.new.items ≡ line.old.items ++ refusal_text why }
    ensures len { array_vec_len line.new ≤ array_vec_len line.old + 80 }
{
    match why {
        Refusal::TooLong => push_bytes(line, b"TooLong"),
        Refusal::Syntax(number) => push_numbered(line, b"Syntax", number as u64),
        Refusal::Unsound(fault) => push_fault(line, fault),
    }
}

/// Appends the name of a fault, and its numbers.
fn push_fault(line: &mut Line, fault: CheckFault)
    requires { array_vec_len line.old + 80 ≤ line_size }
    ensures text { line.new.items ≡ line.old.items ++ fault_text fault }
    ensures len { array_vec_len line.new ≤ array_vec_len line.old + 80 }
{
    match words_of(fault) {
        (name, None) => push_bytes(line, name),
        (name, Some(number)) => push_numbered(line, name, number),
    }
}

/// The name of a fault, and the number behind it, if there is one.
fn words_of(fault: CheckFault) -> (&'static [u8], Option<u64>)
    ensures alone { result.1 ≡ None → result.0.now ≡ fault_text fault }
    ensures numbered { (n : ℕ) → result.1 ≡ Some n → numbered result.0.now n ≡ fault_text fault }
    ensures len { length result.0.now ≤ 20 }
{
    match fault {
        CheckFault::NoStep => (b"NoStep", None),
        CheckFault::StepZero => (b"StepZero", None),
        CheckFault::Duplicate(at) => (b"Duplicate", Some(at as u64)),
        CheckFault::TooManyLines(at) => (b"TooManyLines", Some(at as u64)),
        CheckFault::UnknownNumber(at) => (b"UnknownNumber", Some(at as u64)),
        CheckFault::NoDefaultRate => (b"NoDefaultRate", None),
        CheckFault::NoDefaultInitial => (b"NoDefaultInitial", None),
        CheckFault::LineAfterDefault(at) => (b"LineAfterDefault", Some(at as u64)),
        CheckFault::BadDate(at) => (b"BadDate", Some(at as u64)),
        CheckFault::AmountTooBig(at) => (b"AmountTooBig", Some(at as u64)),
        CheckFault::MeasureZero(at) => (b"MeasureZero", Some(at as u64)),
        CheckFault::NoCommonMeasure => (b"NoCommonMeasure", None),
        CheckFault::TooManyCuts(dimension, count) => (cuts_name(dimension), Some(count as u64)),
        CheckFault::TooManyCells(count) => (b"TooManyCells", Some(count)),
        CheckFault::NoMemory => (b"NoMemory", None),
    }
}

/// Appends a name and a number.
fn push_numbered(line: &mut Line, name: &[u8], number: u64)
    requires { array_vec_len line.old + length name.now + 40 ≤ line_size }
    ensures text { line.new.items ≡ line.old.items ++ numbered name.now number }
    ensures len { array_vec_len line.new ≤ array_vec_len line.old + length name.now + 40 }
{
    push_bytes(line, name);
    push_bytes(line, b" ");
    push_number(line, number as u128);
}

/// The name of the fault that a dimension has too many cuts, up to their number.
fn cuts_name(dimension: Dimension) -> &'static [u8]
    ensures text { (count : ℕ) → numbered result.now count ≡ fault_text (TooManyCuts dimension count) }
    ensures len { length result.now ≤ 20 }
{
    match dimension {
        Dimension::MonthDay => b"TooManyCuts MonthDay",
        Dimension::Minute => b"TooManyCuts Minute",
        Dimension::Distance => b"TooManyCuts Distance",
        Dimension::Time => b"TooManyCuts Time",
    }
}

/// Appends the line of two slots of one number.
fn push_same_number(line: &mut Line, first: u8, second: u8)
    requires { line.old.items ≡ [] }
    ensures { line.new.items ≡ same_number_line first second }
{
    push_bytes(line, b"BAD STORE ");
    push_number(line, first as u128);
    push_bytes(line, b" ");
    push_number(line, second as u128);
    push_bytes(line, b"\n");
}

/// Appends the line of a tariff that has another digest than the sealed one.
fn push_wrong_tariff(line: &mut Line, digest: &[u8; 32], own: &[u8; 32])
    requires { line.old.items ≡ [] }
    ensures { line.new.items ≡ wrong_tariff_line digest.now own.now }
{
    push_bytes(line, b"WRONG TARIFF ");
    push_hex(line, digest);
    push_bytes(line, b" ");
    push_hex(line, own);
    push_bytes(line, b"\n");
}

/// Appends the line of decimals that differ.
fn push_other_decimals(line: &mut Line, found: u8, own: u8)
    requires { line.old.items ≡ [] }
    ensures { line.new.items ≡ other_decimals_line found own }
{
    push_bytes(line, b"OTHER DECIMALS ");
    push_number(line, found as u128);
    push_bytes(line, b" ");
    push_number(line, own as u128);
    push_bytes(line, b"\n");
}

/// Appends the line of parameters that aren't accepted.
fn push_bad_params(line: &mut Line, fault: ParamFault)
    requires { line.old.items ≡ [] }
    ensures { line.new.items ≡ bad_params_line fault }
{
    push_bytes(line, b"BAD PARAMS ");
    push_param_fault(line, fault);
    push_bytes(line, b"\n");
}

/// Appends the name of a fault of parameters, and its line or the parameter.
fn push_param_fault(line: &mut Line, fault: ParamFault)
    requires { array_vec_len line.old + 80 ≤ line_size }
    ensures text { line.new.items ≡ line.old.items ++ param_fault_text fault }
    ensures len { array_vec_len line.new ≤ array_vec_len line.old + 80 }
{
    match fault {
        ParamFault::TooLong => push_bytes(line, b"TooLong"),
        ParamFault::Unknown(at) => push_numbered(line, b"Unknown", at as u64),
        ParamFault::BadValue(at) => push_numbered(line, b"BadValue", at as u64),
        ParamFault::Twice(name) => {
            push_bytes(line, b"Twice ");
            push_bytes(line, name_of(name));
        }
        ParamFault::Missing(name) => {
            push_bytes(line, b"Missing ");
            push_bytes(line, name_of(name));
        }
    }
}

/// The name of a parameter.
fn name_of(name: Name) -> &'static [u8]
    ensures text { result.now ≡ name_text name }
    ensures len { length result.now ≤ 8 }
{
    match name {
        Name::Taxi => b"Taxi",
        Name::Constant => b"Constant",
        Name::Mode => b"Mode",
        Name::Hold => b"Hold",
        Name::Offset => b"Offset",
        Name::Secured => b"Secured",
    }
}

/// Appends the line of rules of offsets that aren't accepted.
fn push_bad_rules(line: &mut Line, fault: RuleFault)
    requires { line.old.items ≡ [] }
    ensures { line.new.items ≡ bad_rules_line fault }
{
    match fault {
        RuleFault::TooLong => push_bytes(line, b"BAD RULES TooLong\n"),
        RuleFault::BadLine(number) => push_number_line(line, b"BAD RULES BadLine ", number as u64),
        RuleFault::SameMonth => push_bytes(line, b"BAD RULES SameMonth\n"),
    }
}
