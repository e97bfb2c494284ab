//! Lines of a receipt that other texts have too. The line that they are put into has to have room for them. Amounts
//! have 0 to 3 decimals. Their form is this project's own.
ghost use Rattle.std.specs.Prelude.{◌++◌, ◌+◌, ◌≡◌, ◌≤◌, length};
ghost use Rattle.{arrayvec.specs.ArrayVec.{array_vec_len}, receipt_text.specs.Receipts.{supplements_text, total_text}};
ghost use Rattle.receipt_text.specs.Common.{line_size};
ghost use Rattle.receipt_text.specs.Receipts.{calculation_text, course_text, fare_text, kind_text, stamp_text};

use crate::calculations::put_calculation;
use crate::headings::put_kind;
use crate::stamps::put_stamp;
use crate::sums::{put_fare, put_supplements, put_total};
use crate::trips::put_course;
use taxi_units::{Kind, Line, Receipt, Stamp};

/// Appends how a hiring ended: `CLOSED`, `ABORTED` or `EXPIRED`, and nothing for roaming, which has no receipt.
#[tactic(auto, using(crate::proofs::Widths::kind_fits))]
pub fn push_kind(line: &mut Line, kind: Kind)
    requires { array_vec_len line.old + 7 ≤ line_size }
    ensures text { line.new.items ≡ line.old.items ++ kind_text kind }
    ensures len { array_vec_len line.new ≡ array_vec_len line.old + length (kind_text kind) }
    ensures most { length (kind_text kind) ≤ 7 }
{
    put_kind(line, kind).unwrap();
}

/// Appends a local date and time as `YYYY-MM-DD HH:MM:SS`.
pub fn push_stamp(line: &mut Line, stamp: Stamp)
    requires { array_vec_len line.old + 27 ≤ line_size }
    ensures text { line.new.items ≡ line.old.items ++ stamp_text stamp }
    ensures len { array_vec_len line.new ≡ array_vec_len line.old + length (stamp_text stamp) }
    ensures most { length (stamp_text stamp) ≤ 27 }
{
    put_stamp(line, &stamp).unwrap();
}

/// Appends the start, the finish, the tariff position and the distance of a trip, as on its receipt, but without the
/// end of the last line.
pub fn push_course(line: &mut Line, receipt: Receipt)
    requires { array_vec_len line.old + 140 ≤ line_size }
    ensures text { line.new.items ≡ line.old.items ++ course_text receipt }
    ensures len { array_vec_len line.new ≡ array_vec_len line.old + length (course_text receipt) }
    ensures most { length (course_text receipt) ≤ 140 }
{
    put_course(line, &receipt).unwrap();
}

/// Appends the line of the calculation: the initial hire fee, and the display steps above it.
#[tactic(auto, using(crate::proofs::Widths::calculation_fits))]
pub fn push_calculation(line: &mut Line, receipt: Receipt)
    requires room { array_vec_len line.old + 80 ≤ line_size }
    requires decimals { receipt.decimals ≤ 3 }
    ensures text { line.new.items ≡ line.old.items ++ calculation_text receipt }
    ensures len { array_vec_len line.new ≡ array_vec_len line.old + length (calculation_text receipt) }
    ensures most { length (calculation_text receipt) ≤ 80 }
{
    put_calculation(line, &receipt).unwrap();
}

/// Appends the line of the fare.
#[tactic(auto, using(crate::proofs::Widths::fare_fits))]
pub fn push_fare(line: &mut Line, receipt: Receipt)
    requires room { array_vec_len line.old + 40 ≤ line_size }
    requires decimals { receipt.decimals ≤ 3 }
    ensures text { line.new.items ≡ line.old.items ++ fare_text receipt }
    ensures len { array_vec_len line.new ≡ array_vec_len line.old + length (fare_text receipt) }
    ensures most { length (fare_text receipt) ≤ 40 }
{
    put_fare(line, &receipt).unwrap();
}

/// Appends the line of the supplements, which are no part of the fare.
#[tactic(auto, using(crate::proofs::Widths::supplements_fit))]
pub fn push_supplements(line: &mut Line, receipt: Receipt)
    requires room { array_vec_len line.old + 40 ≤ line_size }
    requires decimals { receipt.decimals ≤ 3 }
    ensures text { line.new.items ≡ line.old.items ++ supplements_text receipt }
    ensures len { array_vec_len line.new ≡ array_vec_len line.old + length (supplements_text receipt) }
    ensures most { length (supplements_text receipt) ≤ 40 }
{
    put_supplements(line, &receipt).unwrap();
}

/// Appends the line of the total, and the last line.
pub fn push_total(line: &mut Line, receipt: Receipt)
    requires room { array_vec_len line.old + 40 ≤ line_size }
    requires decimals { receipt.decimals ≤ 3 }
    ensures text { line.new.items ≡ line.old.items ++ total_text receipt }
    ensures len { array_vec_len line.new ≡ array_vec_len line.old + length (total_text receipt) }
    ensures most { length (total_text receipt) ≤ 40 }
{
    put_total(line, &receipt).unwrap();
}
