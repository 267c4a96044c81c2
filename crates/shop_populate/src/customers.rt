ghost use Rattle.std.specs.Prelude.{◌≡◌, ◌+◌, ◌%◌, IfOk};
ghost use Rattle.shop_model.specs.population.Population as spec;

use shop_model::words::{first_name, last_name};
use shop_model::{Customer, CustomerDetails, Scale, drawn};
use shop_text::{Caption, Listed, Memory, Shared, Text};
use std::alloc::Global;

/// The table's number in the drawn words.
const CUSTOMERS: u64 = 3;

const LONGEST_EMAIL: usize = b"alinngngng@shop.example".len();

const PHONE: usize = 10;

/// A number of ten digits.
fn phone_number(word: u32) -> u64
    ensures { result ≡ 2_000_000_000 + word % 1_000_000_000 }
{
    2_000_000_000 + word as u64 % 1_000_000_000
}

/// Ten digits.
#[tactic(auto, unfolding(shop_model::specs::population::Population::phone))]
fn phone(alloc: Global, word: u32) -> Result<Caption, Memory>
    ensures { IfOk result (λ text. text ≡ spec.phone word) }
{
    let mut text = Text::with_capacity(alloc, PHONE)?;
    text.push_decimal(phone_number(word))?;
    Ok(Caption::of(text))
}

#[tactic(auto, unfolding(shop_model::specs::population::Population::email))]
fn email(alloc: Global, id: u32) -> Result<Caption, Memory>
    ensures { IfOk result (λ text. text ≡ spec.email id) }
{
    let mut text = Text::with_capacity(alloc, LONGEST_EMAIL)?;
    text.push_digsyl_lower(id)?;
    text.push(b"@shop.example")?;
    Ok(Caption::of(text))
}

/// The customer with this id.
#[tactic(auto, unfolding(shop_model::specs::population::Population::customer_row))]
fn customer_row(alloc: Global, seed: u32, scale: &Scale, id: u32) -> Result<Customer, Memory>
    ensures { IfOk result (λ row. row ≡ spec.customer_row seed scale.now id) }
{
    let [first, last, address, discount, number] = drawn::<5>(seed, scale, CUSTOMERS, id);
    let details = CustomerDetails {
        first: Caption::copy(alloc, first_name(first))?,
        last: Caption::copy(alloc, last_name(last))?,
        discount: discount % 51,
        phone: phone(alloc, number)?,
        email: email(alloc, id)?,
    };
    Ok(Customer {
        id,
        address: 1 + address % scale.addresses,
        login: 0,
        expiry: 0,
        details: Shared::new(alloc, details)?,
    })
}

/// The customers of a shop.
#[tactic(auto, using(shop_model::proofs::cited::Lists::rows_push), unfolding(shop_model::specs::population::Population::customers_table))]
pub(crate) fn customers_table(
    alloc: Global,
    seed: u32,
    scale: &Scale,
) -> Result<Listed<Customer>, Memory>
    ensures { IfOk result (λ table. table ≡ spec.customers_table seed scale.now) }
{
    let mut table = Listed::with_capacity(alloc, scale.customers as usize)?;
    for made in 0..scale.customers {
        table.push(customer_row(alloc, seed, scale, made + 1)?)?;
    }
    Ok(table)
}
