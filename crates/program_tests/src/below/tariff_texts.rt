//! What a tariff's text gives.
use drive_modes::Constant;
use std::alloc::Global;
use std::test::Fail;
use tariff_check::{Checked, check};
use tariff_compile::{Tables, compile};
use tariff_syntax::{parse, texts_have_their_numbers};

/// The sound tariff of a text, if it is one.
fn checked(alloc: Global, text: &str) -> Option<Checked> {
    match parse(alloc, text.as_bytes()) {
        Ok(tariff) => {
            texts_have_their_numbers();
            check(alloc, tariff).ok()
        }
        Err(_) => None,
    }
}

/// The tables of a text's tariff under `k` pulses a kilometre.
pub(super) fn compiled(alloc: Global, text: &str, k: u32) -> Result<Tables, Fail> {
    let checked = checked(alloc, text).ok_or("no sound tariff")?;
    let constant = Constant::new(k).ok().ok_or("no constant")?;
    Ok(compile(alloc, &checked, constant)?)
}
