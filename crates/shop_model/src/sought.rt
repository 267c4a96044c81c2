ghost use Rattle.std.specs.Prelude.{◌≡◌, IfOk, map};
ghost use Rattle.shop_text.specs.Fold.{lower};
ghost use Rattle.shop_model.specs.lists.Catalogues.{compared, search_for};

use crate::SearchKind;
use shop_text::{Memory, Text};
use std::alloc::Global;
use std::marker::Model;

/// What a search looks for. Its text is in the form in which it is compared, so that it is made small
/// once for all that look it up.
#[derive(Debug, Drop)]
pub struct Sought {
    kind: SearchKind,
    text: Text,
}

impl Model for Sought {
    ghost use Rattle.std.specs.Prelude.{◌≡◌};
    ghost use Rattle.shop_model.specs.lists.Catalogues.{Search, compared};

    ghost Value = { Search };

    ghost view = { λ s. record { kind = s.kind; text = s.text } };

    ghost invariant = { λ s. compared s.kind s.text ≡ s.text };
}

/// The bytes, with ASCII capitals made small.
pub fn lower_text(alloc: Global, bytes: &[u8]) -> Result<Text, Memory>
    ensures { IfOk result (λ text. text ≡ map lower bytes.now) }
{
    let mut small = Vec::from_slice(alloc, bytes)?;
    small.make_ascii_lowercase();
    Ok(Text::from_vec(small))
}

/// The form in which a text is compared.
fn form_of(alloc: Global, kind: SearchKind, text: &[u8]) -> Result<Text, Memory>
    ensures { IfOk result (λ form. form ≡ compared kind text.now) }
{
    match kind {
        SearchKind::Title | SearchKind::Author => lower_text(alloc, text),
        SearchKind::Subject => Text::copy(alloc, text),
    }
}

impl Sought {
    /// What a search of this kind looks for.
    pub fn of(alloc: Global, kind: SearchKind, text: &[u8]) -> Result<Sought, Memory>
        ensures { IfOk result (λ sought. sought ≡ search_for kind text.now) }
    {
        let text = form_of(alloc, kind, text)?;
        Ok(Sought { kind, text })
    }

    pub fn kind(&self) -> SearchKind
        ensures { result ≡ self.now.kind }
    {
        self.kind
    }

    /// The text, in small letters unless it is the name of a subject.
    pub fn text(&self) -> &Text
        ensures value { result.now ≡ self.now.text }
        ensures form { compared self.now.kind self.now.text ≡ self.now.text }
    {
        &self.text
    }
}
