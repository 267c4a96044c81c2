//! The ids that the links of a page hand on, written once.
ghost use Rattle.std.specs.Prelude.{◌≡◌, ◌++◌, None, option_map, codes, IsTrue, IfSome, OnOk, OnErr};
ghost use Rattle.shop_text.specs.Texts.{escape};
ghost use Rattle.shop_draft.specs.declared.ids.Id.TheVariants.{Known};
ghost use Rattle.shop_draft.specs.Links.{HasIds, ids_behind, known_ids, sign_text};

use crate::flat::Flat;
use crate::short::Short;
use crate::{Id, PageIds};
use shop_model::IdsAsked;
use shop_text::Memory;
use std::marker::Model;

/// The bytes of `&` in a page.
const MORE_LENGTH: usize = 5;

/// What stands in front of ids.
#[derive(Clone, Copy)]
pub(crate) enum Sign {
    /// `?`, where they are the first parameters of a target.
    First,
    /// `&`, behind others.
    More,
}

impl Sign {
    /// How it stands in a page.
    #[inline(always)]
    pub(crate) fn markup(self) -> &'static [u8]
        ensures { result.now ≡ escape (sign_text self) }
    {
        match self {
            Sign::First => b"?",
            Sign::More => b"&amp;",
        }
    }
}

/// Ids whose text is known, as it stands behind `&`.
#[derive(Drop)]
pub(crate) struct Tail {
    ids: IdsAsked,
    text: Short,
}

impl Model for Tail {
    ghost use Rattle.std.specs.Prelude.{◌≡◌, codes};
    ghost use Rattle.shop_model.specs.declared.requests.IdsAsked.{IdsAsked};
    ghost use Rattle.shop_draft.specs.Links.{ids_behind};

    ghost Value = { IdsAsked };

    ghost view = { λ t. t.ids };

    ghost invariant = { λ t. t.text ≡ ids_behind (codes "&") t.ids };
}

/// The number of an id, where it is known.
fn number_of(id: Option<Id>) -> Option<Option<u32>>
    ensures { IfSome result (λ number. id ≡ option_map Known number) }
{
    match id {
        None => Some(None),
        Some(id) => match id {
            Id::Known(number) => Some(Some(number)),
            _ => None,
        },
    }
}

/// Whether an id is known to be this one, or there is none.
#[inline(always)]
fn is_known_as(id: Option<Id>, number: Option<u32>) -> bool
    ensures { IsTrue result → id ≡ option_map Known number }
{
    match (id, number) {
        (None, None) => true,
        (Some(Id::Known(id)), Some(number)) => id == number,
        _ => false,
    }
}

impl Tail {
    /// That of no ids.
    #[tactic(auto, unfolding(shop_model::specs::pages::Targets::pairs, shop_model::specs::pages::Targets::id_fields))]
    pub(crate) fn new() -> Tail
        ensures { result ≡ record { c = None; cart = None } }
    {
        Tail {
            ids: IdsAsked {
                c: None,
                cart: None,
            },
            text: Short::new(),
        }
    }

    /// Takes these ids in place of the last.
    pub(crate) fn write(&mut self, ids: IdsAsked)
        ensures { self.new ≡ ids }
    {
        self.ids = ids;
        self.text.clear();
        self.text.put_id(b"&amp;c=", ids.c);
        self.text.put_id(b"&amp;cart=", ids.cart);
    }

    /// Whether these are its ids.
    #[inline(always)]
    fn is_of(&self, ids: PageIds) -> bool
        ensures { IsTrue result → ids ≡ known_ids self.now }
    {
        is_known_as(ids.c, self.ids.c) && is_known_as(ids.cart, self.ids.cart)
    }

    /// Takes the ids of a page in place of the last, where they are known; answers whether they are.
    #[inline(never)]
    fn write_known(&mut self, ids: PageIds) -> bool
        ensures { IsTrue result → ids ≡ known_ids self.new }
    {
        match (number_of(ids.c), number_of(ids.cart)) {
            (Some(c), Some(cart)) => {
                self.write(IdsAsked { c, cart });
                true
            }
            _ => false,
        }
    }

    /// Takes the ids of a page where they are known and others than the last; answers whether they are known.
    #[inline(always)]
    pub(crate) fn keep(&mut self, ids: PageIds) -> bool
        ensures { IsTrue result → ids ≡ known_ids self.new }
    {
        self.is_of(ids) || self.write_known(ids)
    }

    /// The text behind `&`.
    #[inline(always)]
    pub(crate) fn text(&self) -> &Short
        ensures { result.now ≡ ids_behind (codes "&") self.now }
    {
        &self.text
    }

    /// Adds the ids behind a sign.
    #[inline(always)]
    pub(crate) fn put_to(&self, bytes: &mut Flat, sign: Sign) -> Result<(), Memory>
        requires { HasIds (known_ids self.now) }
        ensures ok { OnOk result (bytes.new ≡ bytes.old ++ ids_behind (sign_text sign) self.now) }
        ensures err { OnErr result (bytes.new ≡ bytes.old) }
    {
        match sign {
            Sign::First => bytes.put_behind(b'?', &self.text, MORE_LENGTH),
            Sign::More => bytes.put_short(&self.text),
        }
    }
}
