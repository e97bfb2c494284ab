//! What the lines of a text have said so far.
ghost use Rattle.std.specs.Prelude.{[], ◌++◌, ◌∷◌, ◌≡◌, None, Some, if◌then◌else◌};
ghost use Rattle.seal_record.specs.Common.{Gives};
ghost use Rattle.seal_record.specs.{OffsetList.{is_offset_list}, ParamsSoFar.{no_params_yet}, Reading.{whole}};
ghost use Rattle.seal_record.specs.ParamLineStages.{is_twice, keyed_line, line_read, with_pair, with_value};
ghost use Rattle.seal_record.specs.ParamLineStages as spec;

use crate::lines::{is_passed, key_and_value};
use crate::names::name_of;
use crate::offset_list::offsets_of;
use crate::params::{LONGEST_TAXI, MOST_OFFSETS, Name, ParamFault, Params};
use crate::values;
use arrayvec::ArrayVec;
use drive_modes::{Constant, Mode};
use std::marker::Model;

/// A list of offsets, as long as a lawful one may be.
type Pairs = ArrayVec<(u64, i32), MOST_OFFSETS>;

/// The parameters that have been said, and the list of the offsets so far.
#[derive(Drop)]
pub(crate) struct ParamsSoFar {
    taxi: Option<ArrayVec<u8, LONGEST_TAXI>>,
    constant: Option<Constant>,
    mode: Option<Mode>,
    hold_time: Option<u16>,
    offsets: Pairs,
    secured: Option<i32>,
}

impl Model for ParamsSoFar {
    ghost use Rattle.std.specs.{Option.{option_map}, Prelude.{◌≡◌, true}};
    ghost use Rattle.seal_record.specs.{OffsetList.{is_list_so_far}, ParamsSoFar.{ParamsSoFar as State}};

    ghost Value = { State };

    ghost view = { λ s. record {
      taxi = option_map (λ taxi. taxi.items) s.taxi;
      constant = s.constant;
      mode = s.mode;
      hold_time = s.hold_time;
      offsets = s.offsets.items;
      secured = s.secured;
    } };

    ghost invariant = { λ s. is_list_so_far s.offsets.items ≡ true };
}

impl ParamsSoFar {
    /// Before the first line.
    pub(crate) fn nothing() -> ParamsSoFar
        ensures { result ≡ no_params_yet }
    {
        ParamsSoFar {
            taxi: None,
            constant: None,
            mode: None,
            hold_time: None,
            offsets: ArrayVec::new(),
            secured: None,
        }
    }

    /// Whether a parameter that may be said once has been said.
    fn is_twice(&self, name: Name) -> bool
        ensures { result ≡ is_twice self.now name }
    {
        match name {
            Name::Taxi => self.taxi.is_some(),
            Name::Constant => self.constant.is_some(),
            Name::Mode => self.mode.is_some(),
            Name::Hold => self.hold_time.is_some(),
            Name::Offset => false,
            Name::Secured => self.secured.is_some(),
        }
    }

    /// What has been said with one offset more, if the list with it is lawful.
    fn with_pair(self, pair: (u64, i32)) -> Option<ParamsSoFar>
        ensures { result ≡ with_pair self pair }
    {
        let offsets = with_offset(self.offsets, pair)?;
        Some(ParamsSoFar { offsets, ..self })
    }

    /// What has been said with a parameter's value, if the value is of its form.
    fn with_value(mut self, name: Name, value: &[u8]) -> Option<ParamsSoFar>
        ensures { result ≡ with_value self name value.now }
    {
        match name {
            Name::Taxi => {
                let taxi = values::taxi(value)?;
                self.taxi = Some(taxi);
                Some(self)
            }
            Name::Constant => {
                let constant = values::constant(value)?;
                self.constant = Some(constant);
                Some(self)
            }
            Name::Mode => {
                let mode = values::mode(value)?;
                self.mode = Some(mode);
                Some(self)
            }
            Name::Hold => {
                let hold_time = values::hold_time(value)?;
                self.hold_time = Some(hold_time);
                Some(self)
            }
            Name::Offset => {
                let pair = values::pair(value)?;
                self.with_pair(pair)
            }
            Name::Secured => {
                let secured = values::secured(value)?;
                self.secured = Some(secured);
                Some(self)
            }
        }
    }

    /// What has been said after a line with a key and a value.
    fn with_key(self, number: u32, key: &[u8], value: &[u8]) -> Result<ParamsSoFar, ParamFault>
        ensures { result ≡ keyed_line self number (spec.name_of key.now) value.now }
    {
        let Some(name) = name_of(key) else {
            return Err(ParamFault::Unknown(number));
        };
        if self.is_twice(name) {
            return Err(ParamFault::Twice(name));
        }
        match self.with_value(name, value) {
            Some(said) => Ok(said),
            None => Err(ParamFault::BadValue(number)),
        }
    }

    /// What has been said after one more line, of a number from 1.
    #[tactic(auto, unfolding(crate::specs::ParamLineStages::line_read))]
    pub(crate) fn with_line(self, number: u32, line: &[u8]) -> Result<ParamsSoFar, ParamFault>
        ensures { result ≡ line_read self number line.now }
    {
        if is_passed(line) {
            return Ok(self);
        }
        let (key, value) = key_and_value(line);
        self.with_key(number, key, value)
    }

    /// All parameters, if none is missing.
    pub(crate) fn whole(self) -> Result<Params, ParamFault>
        ensures { result ≡ whole self }
    {
        let taxi = self.taxi.ok_or(ParamFault::Missing(Name::Taxi))?;
        let constant = self.constant.ok_or(ParamFault::Missing(Name::Constant))?;
        let mode = self.mode.ok_or(ParamFault::Missing(Name::Mode))?;
        let hold_time = self.hold_time.ok_or(ParamFault::Missing(Name::Hold))?;
        let offsets = offsets_of(self.offsets.as_slice()).ok_or(ParamFault::Missing(Name::Offset))?;
        let secured = self.secured.ok_or(ParamFault::Missing(Name::Secured))?;
        Ok(Params {
            taxi,
            constant,
            mode,
            hold_time,
            offsets,
            secured,
        })
    }
}

/// A list of offsets with one more behind it, if that list is lawful.
fn with_offset(mut offsets: Pairs, pair: (u64, i32)) -> Option<Pairs>
    ensures { Gives (λ list. list.items) result
        (if is_offset_list (offsets.items ++ pair ∷ []) then Some (offsets.items ++ pair ∷ []) else None) }
{
    if offsets.is_full() {
        return None;
    }
    offsets.push(pair);
    match offsets_of(offsets.as_slice()) {
        Some(_) => Some(offsets),
        None => None,
    }
}
