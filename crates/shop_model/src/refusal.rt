ghost use Rattle.std.specs.Prelude.{◌≡◌, IfOk};
ghost use Rattle.shop_model.specs.asked.Refusals as spec;

use crate::{Block, Page, Parameter};
use shop_text::{Listed, Memory, Text};
use std::alloc::Global;

/// A refusal whose page is fixed but for the name of a parameter.
#[derive(Clone, Copy, Debug, PartialEq, Eq)]
pub enum Refusal {
    /// The message is not in the grammar of HTTP.
    BadRequest,
    /// The parameter is missing, or not in its form.
    BadParameter(Parameter),
    EmptyCart,
    FullCart,
    /// One more unit was asked for than a line may have.
    FullLine,
    /// There are as many items as a shop may add to.
    FullShop,
    /// The gateway knows the charge's key with another charge.
    CardReused,
    CardStolen,
    /// The charge is above the gateway's limit.
    CardOverLimit,
    WrongPassword,
    NoPage,
    NoItem,
    NoAuthor,
    NoCart,
    NoCustomer,
    NoUserName,
    NotGetOrPost,
    LargeBody,
    LargeHead,
    TransferEncoding,
    GatewayFailed,
    RowsKeptChanging,
    FullLog,
}

impl Refusal {
    /// The status of HTTP.
    pub fn status(&self) -> u16
        ensures { result ≡ spec.status_of self.now }
    {
        match self {
            Refusal::BadRequest
            | Refusal::BadParameter(_)
            | Refusal::EmptyCart
            | Refusal::FullCart
            | Refusal::FullLine
            | Refusal::FullShop => 400,
            Refusal::CardReused | Refusal::CardStolen | Refusal::CardOverLimit => 402,
            Refusal::WrongPassword => 403,
            Refusal::NoPage
            | Refusal::NoItem
            | Refusal::NoAuthor
            | Refusal::NoCart
            | Refusal::NoCustomer
            | Refusal::NoUserName => 404,
            Refusal::NotGetOrPost => 405,
            Refusal::LargeBody => 413,
            Refusal::LargeHead => 431,
            Refusal::TransferEncoding => 501,
            Refusal::GatewayFailed => 502,
            Refusal::RowsKeptChanging => 503,
            Refusal::FullLog => 507,
        }
    }

    /// The reason phrase of the status.
    pub fn phrase(&self) -> &'static [u8]
        ensures { result.now ≡ spec.phrase_of self.now }
    {
        match self {
            Refusal::BadRequest
            | Refusal::BadParameter(_)
            | Refusal::EmptyCart
            | Refusal::FullCart
            | Refusal::FullLine
            | Refusal::FullShop => b"Bad Request",
            Refusal::CardReused | Refusal::CardStolen | Refusal::CardOverLimit => {
                b"Payment Required"
            }
            Refusal::WrongPassword => b"Forbidden",
            Refusal::NoPage
            | Refusal::NoItem
            | Refusal::NoAuthor
            | Refusal::NoCart
            | Refusal::NoCustomer
            | Refusal::NoUserName => b"Not Found",
            Refusal::NotGetOrPost => b"Method Not Allowed",
            Refusal::LargeBody => b"Payload Too Large",
            Refusal::LargeHead => b"Request Header Fields Too Large",
            Refusal::TransferEncoding => b"Not Implemented",
            Refusal::GatewayFailed => b"Bad Gateway",
            Refusal::RowsKeptChanging => b"Service Unavailable",
            Refusal::FullLog => b"Insufficient Storage",
        }
    }

    /// Why, in one sentence.
    pub fn text(&self) -> &'static [u8]
        ensures { result.now ≡ spec.text_of self.now }
    {
        match self {
            Refusal::BadRequest => b"Bad request.",
            Refusal::BadParameter(parameter) => parameter.refusal(),
            Refusal::EmptyCart => b"The cart is empty.",
            Refusal::FullCart => b"A cart holds at most 100 lines.",
            Refusal::FullLine => b"A line holds at most 999.",
            Refusal::FullShop => b"The shop holds at most 10000 items.",
            Refusal::CardReused => b"The card was refused: reused.",
            Refusal::CardStolen => b"The card was refused: stolen.",
            Refusal::CardOverLimit => b"The card was refused: limit.",
            Refusal::WrongPassword => b"Wrong password.",
            Refusal::NoPage => b"No such page.",
            Refusal::NoItem => b"No item has this number.",
            Refusal::NoAuthor => b"No author has this number.",
            Refusal::NoCart => b"No cart has this number.",
            Refusal::NoCustomer => b"No customer has this number.",
            Refusal::NoUserName => b"No customer has this name.",
            Refusal::NotGetOrPost => b"Use GET or POST.",
            Refusal::LargeBody => b"The body is too large.",
            Refusal::LargeHead => b"The head is too large.",
            Refusal::TransferEncoding => b"Transfer-Encoding is not served.",
            Refusal::GatewayFailed => b"The payment gateway failed.",
            Refusal::RowsKeptChanging => b"The rows kept changing.",
            Refusal::FullLog => b"The log is full.",
        }
    }
}

/// The page of a refusal: the reason phrase as its title, and why.
#[tactic(auto, unfolding(crate::specs::asked::Refusals::refusal_page))]
pub fn refusal_page(alloc: Global, refusal: Refusal) -> Result<Page, Memory>
    ensures { IfOk result (λ page. page ≡ spec.page_of refusal) }
{
    let mut blocks = Listed::with_capacity(alloc, 1)?;
    blocks.push(Block::Para(Text::copy(alloc, refusal.text())?))?;
    Ok(Page {
        status: refusal.status(),
        title: Text::copy(alloc, refusal.phrase())?,
        blocks,
    })
}
