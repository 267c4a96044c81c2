ghost use Rattle.std.specs.Cmp.Lexicographic.{pointwise, nat_list_eq_equiv};
ghost use Rattle.std.specs.Cmp.Rules.{hashing};
ghost use Rattle.std.specs.Cmp.{partial_equiv_from_equiv};
ghost use Rattle.std.specs.Hash as fed;
ghost use Rattle.std.specs.Prelude.{◌≡◌, ◌++◌, ◌∷◌, [], true, nat_eq, IsTrue, IfOk, OnOk, OnErr};
ghost use Rattle.std.proofs.Common.{rules};
ghost use Rattle.shop_text.specs.Escape as spec;

use crate::{Memory, Text};
use std::alloc::Global;
use std::hash::{Hash, Hasher};
use std::marker::Model;

/// Whether a byte stands for itself in a page.
fn is_plain_byte(byte: u8) -> bool
    ensures { IsTrue result → spec.escape_byte byte ≡ byte ∷ [] }
{
    byte != b'&' && byte != b'<' && byte != b'>' && byte != b'"'
}

/// Whether each byte stands for itself in a page.
fn is_plain(bytes: &[u8]) -> bool
    ensures { result ≡ true → spec.escape bytes.now ≡ bytes.now }
{
    for byte in bytes {
        if !is_plain_byte(*byte) {
            return false;
        }
    }
    true
}

/// A text that pages show. It knows whether each of its bytes stands for itself there, so that it is
/// mostly written by a copy. A contract sees the list of its bytes.
#[derive(Drop)]
pub struct Caption {
    text: Text,
    plain: bool,
}

impl Model for Caption {
    ghost use Rattle.std.specs.Prelude.{List, ℕ, ◌≡◌, true};
    ghost use Rattle.shop_text.specs.Escape.{escape};

    ghost Value = { List ℕ };

    ghost view = { λ c. c.text };

    ghost invariant = { λ c. c.plain ≡ true → escape c.text ≡ c.text };
}

impl PartialEq for Caption {
    ghost eq = { pointwise nat_eq };

    ghost laws = { partial_equiv_from_equiv nat_list_eq_equiv };

    fn eq(&self, other: &Caption) -> bool {
        self.text == other.text
    }
}

impl Eq for Caption {
    ghost laws = { nat_list_eq_equiv };
}

impl Hash for Caption {
    ghost hash_input = { fed.slice fed.u8 };

    ghost respects_eq = { Prim.search (hashing, rules) };

    fn hash<H: Hasher>(&self, state: &mut H) {
        self.text.hash(state);
    }
}

impl Caption {
    /// The text; takes no memory.
    pub fn of(text: Text) -> Caption
        ensures { result ≡ text }
    {
        let plain = is_plain(text.bytes());
        Caption { text, plain }
    }

    /// A copy of the bytes.
    pub fn copy(alloc: Global, bytes: &[u8]) -> Result<Caption, Memory>
        ensures { IfOk result (λ caption. caption ≡ bytes.now) }
    {
        Ok(Caption::of(Text::copy(alloc, bytes)?))
    }

    #[inline(always)]
    pub fn bytes(&self) -> &[u8]
        ensures { result.now ≡ self.now }
    {
        self.text.bytes()
    }

    /// Whether each byte is known to stand for itself in a page.
    #[inline(always)]
    pub fn is_plain(&self) -> bool
        ensures { IsTrue result → spec.escape self.now ≡ self.now }
    {
        self.plain
    }

    /// The text; takes no memory.
    pub fn into_text(self) -> Text
        ensures { result ≡ self }
    {
        let Caption { text, plain: _ } = self;
        text
    }
}

impl Text {
    /// Adds the caption as it stands in the text of a page: a copy where it is plain.
    pub fn push_caption(&mut self, caption: &Caption) -> Result<(), Memory>
        ensures ok { OnOk result (self.new ≡ self.old ++ spec.escape caption.now) }
        ensures err { OnErr result (self.new ≡ self.old) }
    {
        if caption.is_plain() {
            self.push(caption.bytes())
        } else {
            self.push_escaped(caption.bytes())
        }
    }
}
