//! Lawful lists of offsets.
ghost use Rattle.std.specs.Prelude.{◌≡◌, None, Some, if◌then◌else◌};
ghost use Rattle.seal_record.specs.OffsetList.{is_offset_list};

use interval_clock::Offsets;

/// The offsets of a list, if it is lawful.
pub(crate) fn offsets_of(pairs: &[(u64, i32)]) -> Option<Offsets>
    ensures { result ≡ (if is_offset_list pairs.now then Some pairs.now else None) }
{
    match Offsets::from_pairs(pairs) {
        Ok(offsets) => Some(offsets),
        Err(_) => None,
    }
}
