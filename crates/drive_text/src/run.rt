//! The events of a line, counted.
use taxi_units::Event;

/// What a line of a drive gives: one event, or a row of measuring intervals. Each interval is its pulses and then its
/// end, or its end alone if it has no pulses.
///
/// What the reader gives is in the ranges of a drive: seconds are 946,684,800 to 7,258,118,399, the pulses of `One` 1
/// to 65,535 and those of `Many` 0 to 65,535, `count` is 1 to 36,000, and the numbers of keys are 0 to 99.
#[derive(Clone, Copy)]
pub enum Run {
    One(Event),
    Many { pulses: u32, count: u32 },
}

impl Default for Run {
    ghost use Rattle.std.specs.Prelude.{◌≡◌};
    ghost use Rattle.drive_text.specs.{Common.{Tick}, declared.run.Run.TheVariants.{One}};

    ghost is_default = { λ run. run ≡ One Tick };

    fn default() -> Run {
        Run::One(Event::Tick)
    }
}
