//! A pocket meter: the core of the taximeter in a program of its own. Its words name a tariff and parameters. It makes
//! an event of each line of standard input, and prints what the display shows. docs/use/EMBEDDING.md leads through it.
#![tactic(auto)]

ghost use Rattle.{std.specs.Iterator.{IsFinite}, outside.specs.Faults.{HasCause}, meter_texts.specs.MadeOf.{AreMadeOf}};
ghost use Rattle.std.specs.{Option.{ForSome}, Prelude.{[], ◌*◌, ◌++◌, ◌+◌, ◌<◌, ◌≡◌, ◌≤◌, All, IfSome, OnOk, length}};
ghost use Rattle.pocket_meter.specs.Common.{IsSettingOf, IsTimely, Setting, first_state, opened, run, shown_texts};
ghost use Rattle.pocket_meter.specs.Lines as spec;

use arrayvec::ArrayVec;
use meter_model::Acts;
use meter_run::DryMeter;
use outside::{Failed, Printer, STORE_SIZE, program_words};
use seal_record::{Seal, read_params};
use std::alloc::Global;
use std::io::Write;
use std::marker::Brand;
use std::process::ExitCode;
use std::sync::ledger::{Blank, Ledger};
use std::{fs, io};
use tariff_check::check;
use tariff_compile::{Tables, compile};
use tariff_syntax::parse;
use taxi_units::{Event, FIRST_SECOND, Key, LAST_SECOND, Steps, is_word, number_in, word};

/// The printer: what the display showed, in room for 4,096 bytes, and how often a call failed.
#[derive(Drop, Default)]
struct Panel {
    text: ArrayVec<u8, 4096>,
    faults: u64,
}

impl<L: Ledger> Printer<STORE_SIZE, L> for Panel {
    ghost tells_image = { ⊥ };

    ghost tells_text = { Unit {0} };

    ghost image = { λ _. [] };

    ghost in_flight = { λ _ _. ⊥ };

    ghost printed = { λ p. p.text.items };

    ghost moment = { λ _. 0 };

    ghost left_since = { λ _ _ _ _. ⊥ };

    ghost faults = { λ p. p.faults };

    ghost store = { λ _ told. absurd told };

    ghost counts_now = { λ _ _ _ _ told _ _ _. absurd told };

    ghost only_now = { λ _ _ _ left. absurd left };

    #[tactic(auto, using(outside::proofs::Laws::begins_whole, outside::proofs::Laws::begins_not))]
    fn print(&mut self, bytes: &[u8], steps: &mut Steps<L>) -> Result<(), Failed> {
        steps.spend();
        let printed = self.text.try_extend_from_slice(bytes);
        self.faults = self.faults.saturating_add(printed.is_err() as u64);
        printed.or(Err(Failed))
    }
}

/// The event of a line, or `None`: `up SECOND`, `down`, `pulses COUNT`, `tick`, or a key: `hire`, `stop`, `clear`.
#[tactic(auto, unfolding(crate::specs::Lines::event_said))]
fn event_of(line: &[u8]) -> Option<Event>
    ensures said { result ≡ spec.event_said line.now }
    ensures timely { ForSome result IsTimely }
{
    match word(line, b"pulses ") {
        _ if is_word(line, b"down") => Some(Event::Down),
        _ if is_word(line, b"tick") => Some(Event::Tick),
        _ if is_word(line, b"hire") => Some(Event::Key(Key::Hire)),
        _ if is_word(line, b"stop") => Some(Event::Key(Key::Stop)),
        _ if is_word(line, b"clear") => Some(Event::Key(Key::Clear)),
        Some(count) => Some(Event::Pulses(number_in(count, 1, 65535)? as u32)),
        None => Some(Event::Up(number_in(word(line, b"up ")?, FIRST_SECOND, LAST_SECOND)?)),
    }
}

/// The events that lines say, in order. `None` at the first line that isn't read or says none, or if memory runs out.
fn events_of<I: Iterator<Item = io::Result<String>> + Drop>(
    alloc: Global,
    lines: I,
) -> Option<Vec<Event>>
    requires can { I.can_next lines }
    requires ends { IsFinite (I.remaining lines) }
    ensures said { IfSome result (λ events. spec.AreSaidByAll I.next_gives lines events.items) }
    ensures timely { ForSome result (λ events. All IsTimely events.items) }
{
    let mut events = Vec::new(alloc);
    for line in lines {
        let event = event_of(line.ok()?.as_bytes())?;
        events.push(event).ok()?;
    }
    Some(events)
}

/// The events of all lines of standard input. `None` if one isn't read, or says none, or if memory runs out.
fn read_events(rt: &HostRuntime) -> Option<Vec<Event>>
    ensures timely { ForSome result (λ events. All IsTimely events.items) }
{
    events_of(rt.alloc(), rt.lines(rt.alloc()))
}

/// The tables of a tariff's text, and a seal with the parameters of the other text. The seal has no digest, which
/// receipts alone print. `None` if one of the texts is refused or memory runs out.
#[tactic(auto, using(tariff_syntax::proofs::Laws::parsed_is_writable))]
fn made_of(alloc: Global, tariff: &[u8], params: &[u8]) -> Option<(Tables, Seal)>
    ensures made { IfSome result (λ made. AreMadeOf tariff.now params.now made.0 made.1) }
    ensures constant { IfSome result (λ made. made.0.constant ≡ made.1.params.constant) }
{
    let checked = check(alloc, parse(alloc, tariff).ok()?).ok()?;
    let params = read_params(params).ok()?;
    let tables = compile(alloc, &checked, params.constant).ok()?;
    let seal = Seal {
        seal_number: 1,
        params,
        digest: [0; 32],
        decimals: tables.decimals(),
    };
    Some((tables, seal))
}

/// Carries out events, one after the other, from a meter before the supply first comes. It takes no memory.
fn carry_all<L: Ledger>(
    made: &(Tables, Seal),
    events: &[Event],
    panel: &mut Panel,
    steps: &mut Steps<L>,
) -> Result<(), Failed>
    requires constant { made.now.0.constant ≡ made.now.1.params.constant }
    requires timely { All IsTimely events.now }
    ensures shown { OnOk result ((s : Setting) → IsSettingOf s made.now.0 made.now.1 → panel.new.text.items
        ≡ panel.old.text.items ++ shown_texts (run s events.now (opened s first_state)).acts) }
    ensures cause { HasCause panel.old.faults panel.new.faults result }
    ensures steps { steps.new ≤ steps.old + 64 * length events.now }
{
    made.0.recall();
    let (mut meter, mut acts) = (DryMeter::new(), Acts::new());
    for event in events {
        meter.carry_event(&made.0, &made.1, *event, &mut acts, panel, steps)?;
    }
    Ok(())
}

/// Carries out the program under its one counter of steps. An `Err` has the status.
fn carry<L: Ledger>(rt: HostRuntime, blank: Blank) -> Result<(), u8>
    requires opens { (blank.name ≡ L.name) × (blank.parts ≡ L.parts) × (0 < blank.parts) }
{
    let words = program_words(&rt).or(Err(1))?;
    let [tariff, params] = words.as_slice() else {
        return Err(1);
    };
    let tariff = fs::read_to_string(&rt, tariff.as_str()).or(Err(1))?;
    let params = fs::read_to_string(&rt, params.as_str()).or(Err(1))?;
    let made = made_of(rt.alloc(), tariff.as_bytes(), params.as_bytes()).ok_or(2)?;
    let events = read_events(&rt).ok_or(3)?;
    let mut panel = Panel::default();
    let mut steps: Steps<L> = Steps::open(blank);
    carry_all(&made, events.as_slice(), &mut panel, &mut steps).or(Err(8))?;
    io::writer(&rt).write_all(panel.text.as_slice()).or(Err(7))
}

fn main(rt: HostRuntime) -> ExitCode {
    ExitCode::from(carry::<Brand>(rt, Blank::new(1)).err().unwrap_or(0))
}
