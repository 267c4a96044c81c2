ghost use Rattle.std.specs.Prelude.{◌≡◌, ℕ, List, [], false, IsTrue};
ghost use Rattle.shop_history.specs.declared.acts.Drawn.{Drawn};
ghost use Rattle.shop_draft.specs.Drawing as spec;
ghost use Rattle.shop_draft.specs.Links.{HasIds, ids_behind};

use shop_model::IdsAsked;

/// An id that a page names: one that is known, or the one of a row that the settle makes.
#[derive(Clone, Copy)]
pub enum Id {
    Known(u32),
    NewCart,
    NewCustomer,
    NewOrder,
}

/// The ids that a page hands on: of a customer and of a cart.
#[derive(Clone, Copy)]
pub struct PageIds {
    pub c: Option<Id>,
    pub cart: Option<Id>,
}

fn known(id: Option<u32>) -> Option<Id>
    ensures { (drawn : Drawn) → spec.maybe_at drawn result ≡ id }
{
    match id {
        Some(id) => Some(Id::Known(id)),
        None => None,
    }
}

impl PageIds {
    /// The ids of a request.
    pub fn of(ids: IdsAsked) -> PageIds
        ensures { (drawn : Drawn) → spec.ids_at drawn result ≡ ids }
    {
        PageIds {
            c: known(ids.c),
            cart: known(ids.cart),
        }
    }

    /// Whether there are none.
    #[tactic(auto, unfolding(shop_model::specs::pages::Targets::pairs, shop_model::specs::pages::Targets::id_fields))]
    #[inline(always)]
    pub(crate) fn is_empty(self) -> bool
        ensures none { IsTrue result → (drawn : Drawn) (sign : List ℕ) → ids_behind sign (spec.ids_at drawn self) ≡ [] }
        ensures some { result ≡ false → HasIds self }
    {
        match (self.c, self.cart) {
            (None, None) => true,
            _ => false,
        }
    }
}
