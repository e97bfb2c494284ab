//! The text of totals.
ghost use Rattle.std.specs.Prelude.{◌++◌, ◌+◌, ◌<◌, ◌≡◌, ◌≤◌, length};
ghost use Rattle.arrayvec.specs.ArrayVec.{array_vec_len};
ghost use Rattle.store_commands.specs.{Common.{line_size}, TotalsText.{share_text, summary_text, totals_heading}};
ghost use Rattle.store_commands.specs.TotalsText.{amount_line, distances_text, held_line, money_lines, position_text};

use call_ends::push_number_line;
use taxi_units::{Line, push_bytes, push_money, push_number};
use totals_record::{Durable, Share, Totals, Trip};

/// Appends a line of a name, an amount and an end.
fn push_amount_line(line: &mut Line, name: &[u8], amount: u128, decimals: u8, end: &[u8])
    requires room { array_vec_len line.old + length name.now + 40 + length end.now ≤ line_size }
    requires decimals { decimals ≤ 3 }
    ensures text { line.new.items ≡ line.old.items ++ amount_line name.now decimals amount end.now }
    ensures len { array_vec_len line.new ≤ array_vec_len line.old + length name.now + 40 + length end.now }
{
    push_bytes(line, name);
    push_money(line, amount, decimals);
    push_bytes(line, end);
}

/// Appends the distances.
fn push_distances(line: &mut Line, totals: &Totals)
    requires { array_vec_len line.old + 101 ≤ line_size }
    ensures text { line.new.items ≡ line.old.items ++ distances_text totals.now }
    ensures len { array_vec_len line.new ≤ array_vec_len line.old + 101 }
{
    push_amount_line(line, b"DISTANCE ", totals.distance_mm, 3, b" m\n");
    push_amount_line(line, b"HIRED ", totals.hired_mm, 3, b" m\n");
}

/// Appends the money.
fn push_money_lines(line: &mut Line, totals: &Totals, decimals: u8)
    requires room { array_vec_len line.old + 99 ≤ line_size }
    requires decimals { decimals ≤ 3 }
    ensures text { line.new.items ≡ line.old.items ++ money_lines decimals totals.now }
    ensures len { array_vec_len line.new ≤ array_vec_len line.old + 99 }
{
    push_amount_line(line, b"SUPPLEMENTS ", totals.supplements, decimals, b"\n");
    push_amount_line(line, b"FARE ", totals.fare, decimals, b"\n");
}

/// Appends the number and the five totals.
pub fn push_summary(line: &mut Line, durable: &Durable, decimals: u8)
    requires room { array_vec_len line.old + 295 ≤ line_size }
    requires decimals { decimals ≤ 3 }
    ensures text { line.new.items ≡ line.old.items ++ summary_text decimals durable.now }
    ensures len { array_vec_len line.new ≤ array_vec_len line.old + 295 }
{
    push_number_line(line, b"NUMBER ", durable.number);
    push_distances(line, &durable.totals);
    push_number_line(line, b"HIRINGS ", durable.totals.hirings);
    push_money_lines(line, &durable.totals, decimals);
}

/// Appends whether a trip is held.
fn push_held(line: &mut Line, hold: &Option<Trip>)
    requires { array_vec_len line.old + 9 ≤ line_size }
    ensures text { line.new.items ≡ line.old.items ++ held_line hold.now }
    ensures len { array_vec_len line.new ≤ array_vec_len line.old + 9 }
{
    match hold {
        None => push_bytes(line, b"HELD no\n"),
        Some(_) => push_bytes(line, b"HELD yes\n"),
    }
}

/// Appends hirings and their fare.
fn push_share(line: &mut Line, share: &Share, decimals: u8)
    requires room { array_vec_len line.old + 81 ≤ line_size }
    requires decimals { decimals ≤ 3 }
    ensures text { line.new.items ≡ line.old.items ++ share_text decimals share.now }
    ensures len { array_vec_len line.new ≤ array_vec_len line.old + 81 }
{
    push_number(line, share.hirings as u128);
    push_bytes(line, b" ");
    push_money(line, share.fare, decimals);
    push_bytes(line, b"\n");
}

/// All lines of totals but those of the tariff positions.
pub fn heading(durable: &Durable, decimals: u8) -> Line
    requires { decimals ≤ 3 }
    ensures text { result.items ≡ totals_heading decimals durable.now }
    ensures few { array_vec_len result ≤ line_size }
{
    let mut line = Line::new();
    push_summary(&mut line, durable, decimals);
    push_held(&mut line, &durable.hold);
    push_number_line(&mut line, b"LAYOUT ", durable.layout as u64);
    push_bytes(&mut line, b"BEFORE ");
    push_share(&mut line, &durable.totals.before, decimals);
    line
}

/// The line of a tariff position that has hirings.
pub fn position_line(position: u64, share: &Share, decimals: u8) -> Line
    requires decimals { decimals ≤ 3 }
    requires some { 0 < share.now.hirings }
    ensures text { result.items ≡ position_text decimals position share.now }
    ensures few { array_vec_len result ≤ line_size }
    ensures some { 0 < array_vec_len result }
{
    let mut line = Line::new();
    push_bytes(&mut line, b"POSITION ");
    push_number(&mut line, position as u128);
    push_bytes(&mut line, b" ");
    push_share(&mut line, share, decimals);
    line
}
