ghost use Rattle.std.specs.Prelude.{◌≡◌, IfOk, OnOk, None, [], ◌∷◌, false, length};
ghost use Rattle.shop_http.specs.Forms as forms;
ghost use Rattle.shop_http.specs.Firsts as spec;
ghost use Rattle.shop_http.specs.Names as names;
ghost use Rattle.shop_http.specs.Sets.{set_asked, SetNothing};
ghost use Rattle.shop_http.specs.declared.requests.names.TheConstants.{PARAMETERS};

use super::decoding::decoded;
use super::names::{PARAMETERS, parameter_named, place_of};
use form_urlencoded::raw_pairs;
use shop_model::Parameter;
use shop_text::Memory;
use std::alloc::Global;

/// The parameter that an encoded name stands for. Their own names need no decoding.
#[inline(always)]
fn parameter_in(alloc: Global, encoded: &[u8]) -> Result<Option<Parameter>, Memory>
    ensures { IfOk result (λ parameter. parameter ≡ names.parameter_named (forms.decoded_text encoded.now)) }
{
    match parameter_named(encoded) {
        Some(parameter) => Ok(Some(parameter)),
        None => Ok(parameter_named(decoded(alloc, encoded)?.as_slice())),
    }
}

/// The values of the parameters: of each that of the first pair with its name, still encoded.
#[derive(Drop)]
pub(crate) struct Values<'a> {
    /// At the place of each parameter.
    kept: [Option<&'a [u8]>; PARAMETERS],
    /// Whether a pair has the name of none of them.
    has_others: bool,
    ghost place_for_each: { length kept ≡ PARAMETERS },
}

impl<'a> Values<'a> {
    ghost use Rattle.shop_http.specs.ValuesView.{firsts_kept};

    pub(crate) fn none() -> Values<'a>
        ensures values { firsts_kept result ≡ spec.firsts_of [] }
        ensures others { result.has_others ≡ false }
    {
        Values {
            kept: [None; PARAMETERS],
            has_others: false,
        }
    }

    /// Reads the pairs of an encoded text behind those that were read. Most messages have no form.
    #[inline(always)]
    pub(crate) fn read(&mut self, alloc: Global, encoded: &'a [u8]) -> Result<(), Memory>
        ensures values { OnOk result (firsts_kept self.new ≡ spec.behind (firsts_kept self.old) (forms.pairs encoded.now)) }
        ensures others { OnOk result (self.new.has_others ≡ false → (self.old.has_others ≡ false) × SetNothing (forms.pairs encoded.now)) }
    {
        if encoded.is_empty() {
            return Ok(());
        }
        self.read_pairs(alloc, encoded)
    }

    /// Reads the pairs of an encoded text, one after another.
    fn read_pairs(&mut self, alloc: Global, encoded: &'a [u8]) -> Result<(), Memory>
        ensures values { OnOk result (firsts_kept self.new ≡ spec.behind (firsts_kept self.old) (forms.pairs encoded.now)) }
        ensures others { OnOk result (self.new.has_others ≡ false → (self.old.has_others ≡ false) × SetNothing (forms.pairs encoded.now)) }
    {
        for (name, value) in raw_pairs(encoded) {
            self.add(alloc, name, value)?;
        }
        Ok(())
    }

    /// Reads a pair of an encoded name and an encoded value.
    fn add(&mut self, alloc: Global, name: &[u8], value: &'a [u8]) -> Result<(), Memory>
        ensures values { OnOk result (firsts_kept self.new ≡ spec.behind (firsts_kept self.old) ((forms.decoded_text name.now, forms.decoded_text value.now) ∷ [])) }
        ensures others { OnOk result (self.new.has_others ≡ false → (self.old.has_others ≡ false) × (set_asked (forms.decoded_text name.now, forms.decoded_text value.now) ≡ None)) }
    {
        match parameter_in(alloc, name)? {
            Some(parameter) => {
                if self.of(parameter).is_none() {
                    self.kept[place_of(parameter)] = Some(value);
                }
            }
            None => self.has_others = true,
        }
        Ok(())
    }

    /// Whether a pair has the name of no parameter.
    #[inline(always)]
    pub(crate) fn has_others(&self) -> bool
        ensures { result ≡ self.now.has_others }
    {
        self.has_others
    }

    /// The encoded value of a parameter.
    #[inline(always)]
    pub(crate) fn of(&self, parameter: Parameter) -> Option<&'a [u8]>
        ensures { spec.kept result ≡ firsts_kept self.now parameter }
    {
        self.kept[place_of(parameter)]
    }
}
