//! What is said behind a call that needs more of its tariff than its output has: the commands for that are asked, which
//! print into memory.
use crate::printed_text::PrintedText;
use call_ends::Ended;
use drive_modes::Constant;
use outside::HostFiles;
use rate_commands::rates::print_rates;
use said::{
    Call, constant_in_mode_s, has_coarse_rate, is_quiet, is_unchanged, said_of_faults,
    said_of_rates,
};
use std::alloc::Global;
use std::sync::ledger::Ledger;
use tariff_commands::faults::print_faults;
use tariff_commands::form::print_form;
use tariff_commands::lines::print_lines;
use taxi_units::Steps;

/// What is said behind a call beyond what its output says. None if there is nothing, or no memory for it.
pub(crate) fn said_further<L: Ledger>(
    rt: HostRuntime,
    alloc: Global,
    call: &Call<'_>,
    steps: &mut Steps<L>,
) -> Option<String> {
    let command = call.words.first()?.as_str();
    let tariff = call.words.get(1)?.as_str();
    if command == "faults" && call.status == 2 {
        return faults_of(rt, alloc, call, tariff, steps);
    }
    if command == "seal" && call.status == 0 && !is_quiet(&rt) {
        return rates_of(rt, alloc, call, tariff, steps);
    }
    None
}

/// Each fault of the tariff.
fn faults_of<L: Ledger>(
    rt: HostRuntime,
    alloc: Global,
    call: &Call<'_>,
    tariff: &str,
    steps: &mut Steps<L>,
) -> Option<String> {
    if !is_unchanged(&rt, tariff, call.began) {
        return None;
    }
    let mut printed = PrintedText::new(alloc);
    let mut files = HostFiles::new(rt, alloc, call.words);
    match print_faults(alloc, &mut files, &mut printed, steps) {
        Ended::Faulty => said_of_faults(&rt, alloc, tariff, printed.whole()?, call.began),
        _ => None,
    }
}

/// Each rate of the tariff that is too coarse.
fn rates_of<L: Ledger>(
    rt: HostRuntime,
    alloc: Global,
    call: &Call<'_>,
    tariff: &str,
    steps: &mut Steps<L>,
) -> Option<String> {
    let number = constant_in_mode_s(&rt, alloc, call.heard, tariff)?;
    let constant = Constant::new(number).ok()?;
    let mut rates = PrintedText::new(alloc);
    let mut files = HostFiles::new(rt, alloc, call.words);
    print_rates(alloc, constant, &mut files, &mut rates, steps);
    if !has_coarse_rate(rates.whole()?) {
        return None;
    }
    let mut lines = PrintedText::new(alloc);
    let mut files = HostFiles::new(rt, alloc, call.words);
    print_lines(alloc, constant, &mut files, &mut lines, steps);
    let mut form = PrintedText::new(alloc);
    let mut files = HostFiles::new(rt, alloc, call.words);
    print_form(alloc, &mut files, &mut form, steps);
    said_of_rates(
        alloc,
        tariff,
        number,
        rates.whole()?,
        lines.whole()?,
        form.whole()?,
    )
}
