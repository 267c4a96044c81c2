ghost use Rattle.std.specs.Prelude.{◌≡◌, ◌++◌, false};
ghost use Rattle.shop_http.specs.Firsts.{firsts_of, kept};
ghost use Rattle.shop_http.specs.Forms as spec;
ghost use Rattle.shop_http.specs.Sets.{SetNothing};
ghost use Rattle.shop_http.specs.ValuesView.{firsts_kept};

use super::values::Values;
use shop_model::Parameter;
use std::marker::Model;

/// The pairs of a message: those of its query, and behind them those of a form.
#[derive(Drop)]
pub(crate) struct Pairs<'v, 'a> {
    query: &'a [u8],
    form: &'a [u8],
    values: &'v Values<'a>,
}

impl<'v, 'a> Model for Pairs<'v, 'a> {
    ghost use Rattle.std.specs.Prelude.{List, ◌≡◌, false};
    ghost use Rattle.shop_http.specs.Sets.{SetNothing};
    ghost use Rattle.shop_http.specs.Forms.{Pair};
    ghost use Rattle.shop_http.specs.Firsts.{firsts_of};
    ghost use Rattle.shop_http.specs.PairsView.{pairs_of};
    ghost use Rattle.shop_http.specs.ValuesView.{firsts_kept};

    ghost Value = { List Pair };

    ghost view = { pairs_of };

    ghost invariant = { λ p. (firsts_kept p.values.now ≡ firsts_of (pairs_of p)) × (p.values.now.has_others ≡ false → SetNothing (pairs_of p)) };
}

impl<'v, 'a> Pairs<'v, 'a> {
    /// The pairs of a query and of a form, whose values these are.
    #[inline(always)]
    pub(crate) fn of(query: &'a [u8], form: &'a [u8], values: &'v Values<'a>) -> Pairs<'v, 'a>
        requires values { firsts_kept values.now ≡ firsts_of (spec.pairs query.now ++ spec.pairs form.now) }
        requires others { values.now.has_others ≡ false → SetNothing (spec.pairs query.now ++ spec.pairs form.now) }
        ensures { result ≡ spec.pairs query.now ++ spec.pairs form.now }
    {
        Pairs {
            query,
            form,
            values,
        }
    }

    /// Whether a pair has the name of no parameter, as those have that set quantities.
    #[inline(always)]
    pub(crate) fn has_others(&self) -> bool
        ensures { result ≡ false → SetNothing self.now }
    {
        self.values.has_others()
    }

    /// The encoded texts whose pairs these are.
    pub(crate) fn texts(&self) -> (&'a [u8], &'a [u8])
        ensures { self.now ≡ spec.pairs result.0.now ++ spec.pairs result.1.now }
    {
        (self.query, self.form)
    }

    /// The value of the first pair of a parameter, still encoded.
    #[inline(always)]
    pub(crate) fn value_of(&self, parameter: Parameter) -> Option<&'a [u8]>
        ensures { kept result ≡ spec.value_of self.now parameter }
    {
        self.values.of(parameter)
    }
}
