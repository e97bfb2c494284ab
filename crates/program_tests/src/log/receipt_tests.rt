//! Receipts of rolls, as tests make them. The texts are those of docs/FORMATS.md.
use std::alloc::AllocError;

/// The lines of a receipt behind that of its taxi.
const BEHIND: &[u8] = b"\nCONSTANT 10000\nSECURED 2025-12-01\n\
TARIFF 2645762409b70e5ab72a0a803b7d1a341373264e56971a8f44cb1969489d5f9b\n\
START 2026-01-01 01:00:00\nFINISH 2026-01-01 01:00:00\nPOSITION 1\nDISTANCE 234.800 m\n\
CALC 3.80 + 0 x 0.20\nFARE 3.80\nSUPPLEMENTS 0.00\nTOTAL 3.80\nEND\n";

/// Appends texts, one behind the other.
fn put(out: &mut Vec<u8>, pieces: &[&[u8]]) -> Result<(), AllocError> {
    for piece in pieces {
        out.extend_from_slice(piece)?;
    }
    Ok(())
}

/// Appends a receipt of this number and this taxi.
pub(crate) fn put_receipt(
    roll: &mut Vec<u8>,
    number: &[u8],
    taxi: &[u8],
) -> Result<(), AllocError> {
    put(
        roll,
        &[b"RECEIPT ", number, b"\nKIND CLOSED\nTAXI ", taxi, BEHIND],
    )
}
