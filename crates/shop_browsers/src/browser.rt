ghost use Rattle.std.specs.Prelude.{◌≡◌, ℕ, ◌+◌, ◌<◌, ◌∷◌, [], codes, IfOk, OnOk, OnErr};
ghost use Rattle.shop_message.specs.Messages.{AreMessages, Between};
ghost use Rattle.shop_model.specs.declared.page.Page.{Page};
ghost use Rattle.shop_model.specs.population.Words.{to_come};
ghost use Rattle.shop_browsers.specs.Browsers as spec;
ghost use Rattle.shop_browsers.specs.Requests.{message_bytes, request_message, no_message};
ghost use Rattle.shop_browsers.specs.Shown as shown;
ghost use Rattle.shop_browsers.specs.Shown.{Shows, TakesPage, after_page, with_ids};

use crate::Mix;
use crate::shown::ids_shown;
use http::Method;
use shop_message::Message;
use shop_model::{IdsAsked, Interaction, Scale, Words};
use shop_pages::{Links, read_links};
use shop_text::{Memory, Text};
use std::alloc::Global;
use std::marker::Model;

/// The table that browsers draw from.
const BROWSERS: u64 = 17;

/// The bytes for which room is made: those of nearly every request.
const ROOM: usize = 256;

/// What came of bytes that may show a page.
#[derive(Clone, Copy, Debug, PartialEq, Eq)]
pub enum Taken {
    Done,
    /// The bytes are no page's text.
    NotAPage,
    Memory,
}

/// An emulated browser.
#[derive(Drop)]
pub struct Browser {
    seed: u32,
    number: u32,
    mix: Mix,
    scale: Scale,
    step: u64,
    customer: Option<u32>,
    cart: Option<u32>,
    asked: Option<Interaction>,
    drawn: [u32; 4],
    words: Words,
}

impl Model for Browser {
    ghost use Rattle.shop_browsers.specs.Browsers.{BrowserState};

    ghost Value = { BrowserState };

    ghost use Rattle.shop_browsers.specs.BrowserView.{state_of, AreDrawn};

    ghost view = { state_of };

    ghost invariant = { λ i. AreDrawn (state_of i) i.drawn i.words };
}

/// The next four words.
fn draw_four(words: &mut Words) -> [u32; 4]
    ensures drawn { result ≡ to_come words.old 0 ∷ to_come words.old 1 ∷ to_come words.old 2 ∷ to_come words.old 3 ∷ [] }
    ensures rest { (k : ℕ) → to_come words.new k ≡ to_come words.old (4 + k) }
{
    let first = words.next();
    let second = words.next();
    let third = words.next();
    let fourth = words.next();
    [first, second, third, fourth]
}

impl Browser {
    /// A browser that made no request yet. Browsers have numbers, and each draws words of its own.
    pub fn new(seed: u32, number: u32, mix: Mix, scale: &Scale) -> Browser
        ensures { result ≡ spec.new_browser seed number mix scale.now }
    {
        let mut words = Words::new(seed, scale, BROWSERS, u64::from(number));
        let drawn = draw_four(&mut words);
        Browser {
            seed,
            number,
            mix,
            scale: *scale,
            step: 0,
            customer: None,
            cart: None,
            asked: None,
            drawn,
            words,
        }
    }

    /// The bytes of its next request, which it then has made. Where memory runs out it made none.
    pub fn next_request(&mut self, alloc: Global) -> Result<Text, Memory>
        ensures bytes { IfOk result (λ bytes. bytes ≡ message_bytes self.old) }
        ensures ok { OnOk result (self.new ≡ spec.after_request self.old) }
        ensures err { OnErr result (self.new ≡ self.old) }
    {
        let meant = self.meant();
        let bytes = self.request(alloc, meant)?;
        self.go_on(meant);
        Ok(bytes)
    }

    fn request(&self, alloc: Global, meant: Interaction) -> Result<Text, Memory>
        requires { meant ≡ spec.meant self.now }
        ensures { IfOk result (λ bytes. bytes ≡ message_bytes self.now) }
    {
        let mut bytes = Text::with_capacity(alloc, ROOM)?;
        bytes.push(b"GET ")?;
        self.push_target(&mut bytes, meant)?;
        bytes.push(b" HTTP/1.1\r\nHost: shop\r\n\r\n")?;
        Ok(bytes)
    }

    /// A message for browsers to write, with room for the target of nearly every request.
    pub fn empty_message(alloc: Global) -> Result<Message, Memory>
        ensures { IfOk result (λ message. message ≡ no_message) }
    {
        Ok(Message {
            method: Method::GET,
            target: Text::with_capacity(alloc, ROOM)?,
            body: Text::new(alloc),
            close: false,
        })
    }

    /// Writes the message of its next request, which it then has made: the one that reading the bytes of that request
    /// gives. The room of what the message was is used again. Where memory runs out it made no request, and nothing is
    /// said of the message.
    pub fn next_message(&mut self, message: &mut Message) -> Result<(), Memory>
        ensures message { OnOk result (AreMessages (message_bytes self.old) (message.new ∷ []) Between) }
        ensures get { OnOk result (message.new.method ≡ codes "GET") }
        ensures ok { OnOk result (self.new ≡ spec.after_request self.old) }
        ensures err { OnErr result (self.new ≡ self.old) }
    {
        let meant = self.meant();
        self.write_message(message, meant)?;
        self.go_on(meant);
        Ok(())
    }

    fn write_message(&self, message: &mut Message, meant: Interaction) -> Result<(), Memory>
        requires { meant ≡ spec.meant self.now }
        ensures { OnOk result (message.new ≡ request_message self.now) }
    {
        message.method = Method::GET;
        message.target.clear();
        message.body.clear();
        message.close = false;
        self.push_target(&mut message.target, meant)
    }

    /// Goes on to the next step, once it asked.
    fn go_on(&mut self, meant: Interaction)
        requires { meant ≡ spec.meant self.old }
        ensures { self.new ≡ spec.after_request self.old }
    {
        self.asked = Some(meant);
        if self.step < u64::MAX {
            self.step += 1;
            self.drawn = draw_four(&mut self.words);
        }
    }

    /// Takes the first customer and the first cart that the links of a page name, of which the bytes are the text, or
    /// a reply with it; what they don't name it keeps. After a Buy Confirm it forgets its cart.
    pub fn take_shown(&mut self, shown: &[u8])
        ensures { (p : Page) → Shows shown.now p → self.new ≡ after_page self.old p }
    {
        self.take_ids(ids_shown(shown));
    }

    /// Takes what the links of a page name, where the bytes are the text of one.
    pub fn take_page(&mut self, alloc: Global, bytes: &[u8]) -> Taken
        ensures { TakesPage self.old self.new bytes.now result }
    {
        match read_links(alloc, bytes) {
            Links::Found(_) => {
                self.take_shown(bytes);
                Taken::Done
            }
            Links::NotAPage => Taken::NotAPage,
            Links::Memory => Taken::Memory,
        }
    }

    fn take_ids(&mut self, ids: IdsAsked)
        ensures { self.new ≡ with_ids self.old ids }
    {
        self.customer = ids.c.or(self.customer);
        self.cart = cart_after(self.asked, ids.cart.or(self.cart));
    }

    pub(crate) fn customer(&self) -> Option<u32>
        ensures { result ≡ self.now.customer }
    {
        self.customer
    }

    pub(crate) fn cart(&self) -> Option<u32>
        ensures { result ≡ self.now.cart }
    {
        self.cart
    }

    pub(crate) fn scale(&self) -> Scale
        ensures { result ≡ self.now.scale }
    {
        self.scale
    }

    /// A word of the four that it drew for its next request.
    pub(crate) fn word(&self, place: usize) -> u32
        requires { place < 4 }
        ensures { result ≡ spec.word_at self.now place }
    {
        self.drawn[place]
    }

    /// What it asks for next.
    fn meant(&self) -> Interaction
        ensures { result ≡ spec.meant self.now }
    {
        let picked = self.mix.picked(self.word(0));
        with_cart(self.cart, as_customer(self.customer, picked))
    }
}

fn as_customer(customer: Option<u32>, interaction: Interaction) -> Interaction
    ensures { result ≡ spec.as_customer customer interaction }
{
    match (customer, interaction) {
        (None, Interaction::BuyConfirm) => Interaction::BuyRequest,
        _ => interaction,
    }
}

fn with_cart(cart: Option<u32>, interaction: Interaction) -> Interaction
    ensures { result ≡ spec.with_cart cart interaction }
{
    match (cart, interaction) {
        (None, Interaction::BuyRequest | Interaction::BuyConfirm) => Interaction::ShoppingCart,
        _ => interaction,
    }
}

fn cart_after(asked: Option<Interaction>, cart: Option<u32>) -> Option<u32>
    ensures { result ≡ shown.cart_after asked cart }
{
    match asked {
        Some(Interaction::BuyConfirm) => None,
        _ => cart,
    }
}
