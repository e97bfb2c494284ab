//! Dates, days and local times.
ghost use Rattle.std.specs.Prelude.{◌++◌, ◌+◌, ◌<◌, ◌↔◌, ◌≡◌, ◌≤◌, IsOk, OnOk, length};
ghost use Rattle.arrayvec.specs.ArrayVec.{array_vec_len};
ghost use Rattle.receipt_text.specs.{Common.{IsDay, line_size}, Receipts.{date_text, day_text, stamp_text, time_text}};

use interval_clock::date_of_day;
use taxi_units::{Line, LineFull, Stamp, put_bytes, put_padded};

/// Appends a date.
pub(crate) fn put_date(line: &mut Line, year: u16, month: u8, date: u8) -> Result<(), LineFull>
    ensures variant { IsOk result ↔ (array_vec_len line.old + length (date_text year month date) ≤ line_size) }
    ensures ok { OnOk result (line.new.items ≡ line.old.items ++ date_text year month date) }
{
    put_padded(line, year as u64, 4)?;
    put_bytes(line, b"-")?;
    put_padded(line, month as u64, 2)?;
    put_bytes(line, b"-")?;
    put_padded(line, date as u64, 2)
}

/// Appends a second of the day as hours, minutes and seconds.
fn put_time(line: &mut Line, second: u32) -> Result<(), LineFull>
    ensures variant { IsOk result ↔ (array_vec_len line.old + length (time_text second) ≤ line_size) }
    ensures ok { OnOk result (line.new.items ≡ line.old.items ++ time_text second) }
{
    put_padded(line, (second / 3600) as u64, 2)?;
    put_bytes(line, b":")?;
    put_padded(line, (second / 60 % 60) as u64, 2)?;
    put_bytes(line, b":")?;
    put_padded(line, (second % 60) as u64, 2)
}

/// Appends a local date and time.
#[tactic(auto, unfolding(crate::specs::Receipts::stamp_text))]
pub(crate) fn put_stamp(line: &mut Line, stamp: &Stamp) -> Result<(), LineFull>
    ensures variant { IsOk result ↔ (array_vec_len line.old + length (stamp_text stamp.now) ≤ line_size) }
    ensures ok { OnOk result (line.new.items ≡ line.old.items ++ stamp_text stamp.now) }
{
    put_date(line, stamp.year, stamp.month, stamp.date)?;
    put_bytes(line, b" ")?;
    put_time(line, stamp.second)
}

/// Appends the date of a day number of the years 2000 to 2199, as YYYY-MM-DD, which has 10 bytes. `LineFull`: it
/// doesn't fit. The form is this project's own.
#[tactic(auto, unfolding(crate::specs::Receipts::day_text))]
pub fn put_day(line: &mut Line, day: i32) -> Result<(), LineFull>
    requires { IsDay day }
    ensures variant { IsOk result ↔ (array_vec_len line.old + length (day_text day) ≤ line_size) }
    ensures ok { OnOk result (line.new.items ≡ line.old.items ++ day_text day) }
    ensures size { length (day_text day) ≡ 10 }
{
    let date = date_of_day(day as u32);
    put_date(line, date.year, date.month, date.date)
}
