//! Subjects by their names, which need no decoding.
ghost use Rattle.std.specs.Prelude.{◌≡◌, IfOk};
ghost use Rattle.shop_model.specs.rows.Subjects.{subject_of};
ghost use Rattle.shop_http.specs.Forms as spec;

use super::decoding::decoded;
use shop_model::Subject;
use shop_text::Memory;
use std::alloc::Global;

/// The subject that an encoded name stands for.
pub(crate) fn subject_in(alloc: Global, encoded: &[u8]) -> Result<Option<Subject>, Memory>
    ensures { IfOk result (λ subject. subject ≡ subject_of (spec.decoded_text encoded.now)) }
{
    // A guess that is right for every name; what else is asked for is looked up.
    let subject = likely(encoded);
    if subject.name() == encoded {
        return Ok(Some(subject));
    }
    Ok(Subject::of(decoded(alloc, encoded)?.as_slice()))
}

/// The only subject that may have this name, by its first letter and its length.
fn likely(name: &[u8]) -> Subject {
    let Some(first) = name.first() else {
        return Subject::Arts;
    };
    match (*first, name.len()) {
        (b'B', 8) => Subject::Business,
        (b'B', _) => Subject::Biographies,
        (b'C', 7) => Subject::Cooking,
        (b'C', 8) => Subject::Children,
        (b'C', _) => Subject::Computers,
        (b'H', 4) => Subject::Home,
        (b'H', 5) => Subject::Humor,
        (b'H', 6) => Subject::Health,
        (b'H', _) => Subject::History,
        (b'L', _) => Subject::Literature,
        (b'M', _) => Subject::Mystery,
        (b'N', _) => Subject::NonFiction,
        (b'P', 8) => Subject::Politics,
        (b'P', _) => Subject::Parenting,
        (b'R', 7) => Subject::Romance,
        (b'R', 8) => Subject::Religion,
        (b'R', _) => Subject::Reference,
        (b'S', 6) => Subject::Sports,
        (b'S', 9) => Subject::SelfHelp,
        (b'S', 14) => Subject::ScienceNature,
        (b'S', _) => Subject::ScienceFiction,
        (b'T', _) => Subject::Travel,
        (b'Y', _) => Subject::Youth,
        _ => Subject::Arts,
    }
}
