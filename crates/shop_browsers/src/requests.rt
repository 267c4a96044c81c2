//! The targets of a browser's requests. A refusal may come after some pieces of one.
ghost use Rattle.std.specs.Prelude.{◌≡◌, ◌++◌, ◌∷◌, [], ◌||◌, codes, decimal, OnOk, if◌then◌else◌};
ghost use Rattle.std.specs.Option.{is_some};
ghost use Rattle.shop_model.specs.declared.requests.SearchKind.TheVariants as kind;
ghost use Rattle.shop_model.specs.pages.Forms.{text_field};
ghost use Rattle.shop_model.specs.pages.Targets.{id_field};
ghost use Rattle.shop_model.specs.population.Words.{entry};
ghost use Rattle.shop_browsers.specs.Adding.{Adds, AddsLast, id_text};
ghost use Rattle.shop_browsers.specs.Browsers as browsers;
ghost use Rattle.shop_browsers.specs.Requests as spec;

use crate::Browser;
use shop_model::words::{first_name, last_name, noun};
use shop_model::{CardType, Interaction, SearchKind, Subject};
use shop_text::{Memory, Text};

/// Adds an id with what stands before it, where there is one.
#[inline(always)]
fn push_id(text: &mut Text, front: &[u8], id: Option<u32>) -> Result<(), Memory>
    ensures { OnOk result (text.new ≡ text.old ++ id_text front.now id) }
{
    match id {
        None => Ok(()),
        Some(number) => push_number(text, front, number),
    }
}

/// Adds a parameter with what stands before its value.
#[inline(always)]
fn push_field(text: &mut Text, front: &[u8], value: &[u8]) -> Result<(), Memory>
    ensures { OnOk result (text.new ≡ text.old ++ (front.now ++ value.now)) }
{
    text.push(front)?;
    text.push(value)
}

/// The same of a number.
#[inline(always)]
fn push_number(text: &mut Text, front: &[u8], number: u32) -> Result<(), Memory>
    ensures { OnOk result (text.new ≡ text.old ++ (front.now ++ decimal number)) }
{
    text.push(front)?;
    text.push_decimal(u64::from(number))
}

/// The sign before a parameter, the first or one that stands behind others.
fn sign_behind(others: bool) -> &'static [u8]
    ensures { result.now ≡ (if others then codes "&" else codes "?") }
{
    if others { b"&" } else { b"?" }
}

impl Browser {
    /// Adds the target of the next request, by what it asks for.
    pub(crate) fn push_target(&self, text: &mut Text, meant: Interaction) -> Result<(), Memory>
        requires { meant ≡ browsers.meant self.now }
        ensures { OnOk result (text.new ≡ text.old ++ spec.target_of self.now) }
    {
        text.push(meant.path().as_bytes())?;
        self.push_parameters(text, meant)
    }

    fn push_parameters(&self, text: &mut Text, interaction: Interaction) -> Result<(), Memory>
        ensures { OnOk result (AddsLast text.old (codes "?") (spec.parameters_of self.now interaction) text.new) }
    {
        match interaction {
            Interaction::NewProducts => self.push_subject(text),
            Interaction::BestSellers => self.push_subject(text),
            Interaction::ProductDetail => self.push_item_and_ids(text),
            Interaction::SearchResults => self.push_search(text),
            Interaction::ShoppingCart => self.push_item_and_ids(text),
            Interaction::BuyRequest => self.push_buyer(text),
            Interaction::BuyConfirm => self.push_card(text),
            Interaction::OrderDisplay => self.push_login_and_ids(text),
            Interaction::AdminRequest => self.push_item_and_ids(text),
            Interaction::AdminConfirm => self.push_change(text),
            _ => self.push_ids(text),
        }
    }

    /// Whether it has a customer or a cart.
    fn has_ids(&self) -> bool
        ensures { result ≡ (is_some self.now.customer || is_some self.now.cart) }
    {
        self.customer().is_some() || self.cart().is_some()
    }

    /// Adds the ids that it has.
    #[inline(always)]
    fn push_ids(&self, text: &mut Text) -> Result<(), Memory>
        ensures { OnOk result (AddsLast text.old (codes "?") (spec.carried self.now) text.new) }
    {
        match self.customer() {
            None => push_id(text, b"?cart=", self.cart()),
            Some(customer) => {
                push_number(text, b"?c=", customer)?;
                push_id(text, b"&cart=", self.cart())
            }
        }
    }

    /// Adds the ids that it has, behind other parameters.
    #[inline(always)]
    fn push_more_ids(&self, text: &mut Text) -> Result<(), Memory>
        ensures { OnOk result (AddsLast text.old (codes "&") (spec.carried self.now) text.new) }
    {
        push_id(text, b"&c=", self.customer())?;
        push_id(text, b"&cart=", self.cart())
    }

    /// The name of the subject that it picked.
    fn subject_drawn(&self) -> &'static [u8]
        ensures { result.now ≡ spec.subject_drawn self.now }
    {
        Subject::picked(self.word(2)).name()
    }

    fn push_subject(&self, text: &mut Text) -> Result<(), Memory>
        ensures { OnOk result (AddsLast text.old (codes "?") (text_field (codes "subject") (spec.subject_drawn self.now) ∷ spec.carried self.now) text.new) }
    {
        push_field(text, b"?subject=", self.subject_drawn())?;
        self.push_more_ids(text)
    }

    /// The item that it picked.
    fn item_drawn(&self) -> u32
        ensures { result ≡ spec.item_drawn self.now }
    {
        1 + self.word(1) % self.scale().items
    }

    /// Adds the item that it picked, as the first parameter.
    fn push_item(&self, text: &mut Text) -> Result<(), Memory>
        ensures { OnOk result (Adds text.old (codes "?") (spec.item_field self.now ∷ []) text.new (codes "&")) }
    {
        push_number(text, b"?item=", self.item_drawn())
    }

    fn push_item_and_ids(&self, text: &mut Text) -> Result<(), Memory>
        ensures { OnOk result (AddsLast text.old (codes "?") (spec.item_field self.now ∷ spec.carried self.now) text.new) }
    {
        self.push_item(text)?;
        self.push_more_ids(text)
    }

    /// The kind of the search that it picked.
    fn kind_drawn(&self) -> SearchKind
        ensures { result ≡ spec.kind_drawn self.now }
    {
        kind_picked(self.word(1))
    }

    /// What a search of this kind is for.
    fn text_drawn(&self, kind: SearchKind) -> &'static [u8]
        ensures { result.now ≡ spec.text_drawn self.now kind }
    {
        let word = self.word(2);
        match kind {
            SearchKind::Title => noun(word),
            SearchKind::Author => last_name(word),
            SearchKind::Subject => Subject::picked(word).name(),
        }
    }

    fn push_search(&self, text: &mut Text) -> Result<(), Memory>
        ensures { OnOk result (AddsLast text.old (codes "?") (spec.search_fields self.now ++ spec.carried self.now) text.new) }
    {
        let kind = self.kind_drawn();
        push_field(text, b"?kind=", kind.name())?;
        push_field(text, b"&text=", self.text_drawn(kind))?;
        self.push_more_ids(text)
    }

    /// The customer whom it picked.
    fn customer_drawn(&self) -> u32
        ensures { result ≡ spec.customer_drawn self.now }
    {
        1 + self.word(3) % self.scale().customers
    }

    fn push_login(&self, text: &mut Text, sign: &[u8]) -> Result<(), Memory>
        ensures { OnOk result (Adds text.old sign.now (spec.login_fields self.now) text.new (codes "&")) }
    {
        let id = self.customer_drawn();
        text.push(sign)?;
        text.push(b"user=")?;
        text.push_digsyl(id)?;
        text.push(b"&pass=")?;
        text.push_digsyl_lower(id)
    }

    fn push_login_and_ids(&self, text: &mut Text) -> Result<(), Memory>
        ensures { OnOk result (AddsLast text.old (codes "?") (spec.login_fields self.now ++ spec.carried self.now) text.new) }
    {
        self.push_login(text, b"?")?;
        self.push_more_ids(text)
    }

    fn push_buyer(&self, text: &mut Text) -> Result<(), Memory>
        ensures { OnOk result (AddsLast text.old (codes "?") (id_field (codes "cart") self.now.cart ++ spec.buyer_fields self.now) text.new) }
    {
        push_id(text, b"?cart=", self.cart())?;
        let sign = sign_behind(self.cart().is_some());
        if self.word(3) % 5 == 0 {
            self.push_newcomer(text, sign)
        } else {
            self.push_login(text, sign)
        }
    }

    fn push_newcomer(&self, text: &mut Text, sign: &[u8]) -> Result<(), Memory>
        ensures { OnOk result (AddsLast text.old sign.now (spec.newcomer_fields self.now) text.new) }
    {
        let first = self.word(1);
        let second = self.word(2);
        text.push(sign)?;
        push_field(text, b"fn=", first_name(first))?;
        push_field(text, b"&ln=", last_name(second))?;
        push_field(text, b"&street1=", noun(first))?;
        push_field(text, b"&city=", last_name(first))?;
        push_number(text, b"&zip=10000&country=", 1 + second % 92)?;
        text.push(b"&phone=5550000000&email=b@shop.example")
    }

    fn push_card(&self, text: &mut Text) -> Result<(), Memory>
        ensures { OnOk result (AddsLast text.old (codes "?") (spec.carried self.now ++ spec.card_fields self.now) text.new) }
    {
        self.push_ids(text)?;
        text.push(sign_behind(self.has_ids()))?;
        push_field(text, b"card=", CardType::picked(self.word(1)).name())?;
        text.push(b"&number=4111222233334444&name=B&expiry=2030-12")
    }

    fn push_change(&self, text: &mut Text) -> Result<(), Memory>
        ensures { OnOk result (AddsLast text.old (codes "?") (spec.change_fields self.now ++ spec.carried self.now) text.new) }
    {
        self.push_item(text)?;
        push_number(text, b"&cost=", 100 + self.word(2) % 9900)?;
        text.push(b"&image=/img/new.gif&thumb=/img/newthumb.gif")?;
        self.push_more_ids(text)
    }
}

/// The kind of search that a drawn word picks.
#[tactic(auto, unfolding(crate::specs::Requests::kinds))]
fn kind_picked(word: u32) -> SearchKind
    ensures { result ≡ entry kind.Title spec.kinds word }
{
    match word % 3 {
        0 => SearchKind::Title,
        1 => SearchKind::Author,
        _ => SearchKind::Subject,
    }
}
