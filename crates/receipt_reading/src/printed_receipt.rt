//! Receipts as they stand in what was printed.
use arrayvec::ArrayVec;
use receipt_text::SealPart;
use std::marker::Model;
use taxi_units::Receipt;

/// How many bytes a receipt has at most.
pub const LONGEST_RECEIPT: usize = 480;

/// A receipt as it was printed: its text, and what that says.
#[derive(Drop)]
pub struct PrintedReceipt {
    /// The text, by the grammar of receipts: at most 480 bytes.
    pub text: ArrayVec<u8, LONGEST_RECEIPT>,
    /// What it says of the hiring.
    pub receipt: Receipt,
    /// What it says of the seal of the meter.
    pub part: SealPart,
}

impl Model for PrintedReceipt {
    ghost use Rattle.receipt_reading.specs.Printed.{Printed};

    ghost Value = { Printed };

    ghost view = { λ r. record { text = r.text.items; receipt = r.receipt; part = r.part } };
}
