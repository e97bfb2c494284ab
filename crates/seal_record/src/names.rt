//! The keys of the parameters.
ghost use Rattle.std.specs.{Prelude.{◌≡◌}, Str.{bytes_eq}};
ghost use Rattle.seal_record.specs.ParamLineStages as spec;

use crate::params::Name;

/// Whether a text is another.
pub(crate) fn is_text(found: &[u8], text: &[u8]) -> bool
    ensures { result ≡ bytes_eq found.now text.now }
{
    found == text
}

/// The parameter of a key.
#[tactic(auto, unfolding(crate::specs::ParamLineStages::name_of))]
pub(crate) fn name_of(key: &[u8]) -> Option<Name>
    ensures { result ≡ spec.name_of key.now }
{
    if is_text(key, b"taxi") {
        Some(Name::Taxi)
    } else if is_text(key, b"constant") {
        Some(Name::Constant)
    } else if is_text(key, b"mode") {
        Some(Name::Mode)
    } else if is_text(key, b"hold") {
        Some(Name::Hold)
    } else if is_text(key, b"offset") {
        Some(Name::Offset)
    } else if is_text(key, b"secured") {
        Some(Name::Secured)
    } else {
        None
    }
}
