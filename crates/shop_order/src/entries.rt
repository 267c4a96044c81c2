//! The act and the writes by which a customer logs in, or is entered.
ghost use Rattle.std.specs.Prelude.{◌≡◌, ◌%◌, ◌∷◌, [], IfOk};
ghost use Rattle.shop_attempt.specs.declared.attempts.Write.TheVariants as write_kinds;
ghost use Rattle.shop_order.specs.Entries as spec;

use shop_attempt::Write;
use shop_history::Act;
use shop_model::{BuyRequest, Buyer, Customer, CustomerDetails, Newcomer};
use shop_text::{Boxed, Caption, Listed, Memory, Shared};
use std::alloc::Global;

fn share_buyer(buyer: &Buyer) -> Result<Buyer, Memory>
    ensures { IfOk result (λ shared. shared ≡ buyer.now) }
{
    match buyer {
        Buyer::Returning(login) => Ok(Buyer::Returning(login.share()?)),
        Buyer::Newcomer(newcomer) => Ok(Buyer::Newcomer(newcomer.share()?)),
    }
}

/// The act of a request, with the word that was drawn for it; it shares what the buyer says.
pub(crate) fn act(asked: &BuyRequest, draw: u32) -> Result<Act, Memory>
    ensures { IfOk result (λ act. act ≡ Act.Enter asked.now draw) }
{
    Ok(Act::Enter(
        BuyRequest {
            cart: asked.cart,
            buyer: share_buyer(&asked.buyer)?,
        },
        draw,
    ))
}

/// The write by which the customer with an id logs in.
pub(crate) fn login_writes(alloc: Global, id: u32) -> Result<Listed<Write>, Memory>
    ensures { IfOk result (λ writes. writes ≡ write_kinds.Login id ∷ []) }
{
    let mut writes = Listed::with_capacity(alloc, 1)?;
    writes.push(Write::Login(id))?;
    Ok(writes)
}

/// The discount that a word draws for who is new, in per cent.
pub(crate) fn discount_of(draw: u32) -> u32
    ensures { result ≡ draw % 51 }
{
    draw % 51
}

/// What is kept of who is new, with the discount that a word draws.
fn details(alloc: Global, newcomer: &Newcomer, draw: u32) -> Result<CustomerDetails, Memory>
    ensures { IfOk result (λ details. details ≡ spec.details_of draw newcomer.now) }
{
    Ok(CustomerDetails {
        first: Caption::copy(alloc, newcomer.first.bytes())?,
        last: Caption::copy(alloc, newcomer.last.bytes())?,
        discount: discount_of(draw),
        phone: Caption::copy(alloc, newcomer.phone.bytes())?,
        email: Caption::copy(alloc, newcomer.email.bytes())?,
    })
}

/// Who is new, before the settle.
fn customer(
    alloc: Global,
    newcomer: &Newcomer,
    address: Option<u32>,
    draw: u32,
) -> Result<Customer, Memory>
    ensures { IfOk result (λ customer. customer ≡ spec.newcomer_row draw newcomer.now address) }
{
    let details = details(alloc, newcomer, draw)?;
    Ok(Customer {
        id: 0,
        address: address.unwrap_or(0),
        login: 0,
        expiry: 0,
        details: Shared::new(alloc, details)?,
    })
}

/// The writes by which who is new is entered, at the address with an id or at a new one.
pub(crate) fn newcomer_writes(
    alloc: Global,
    newcomer: &Newcomer,
    address: Option<u32>,
    draw: u32,
) -> Result<Listed<Write>, Memory>
    ensures { IfOk result (λ writes. writes ≡ spec.newcomer_writes draw newcomer.now address) }
{
    let mut writes = Listed::with_capacity(alloc, 2)?;
    if address.is_none() {
        let text = Boxed::new(alloc, newcomer.address.copy(alloc)?)?;
        writes.push(Write::AddAddress(text))?;
    }
    writes.push(Write::AddCustomer(customer(alloc, newcomer, address, draw)?))?;
    Ok(writes)
}
