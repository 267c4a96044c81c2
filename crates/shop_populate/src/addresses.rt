ghost use Rattle.std.specs.Prelude.{◌≡◌, ◌+◌, ◌%◌, IfOk};
ghost use Rattle.shop_model.specs.population.Population as spec;

use shop_model::words::{adjective, last_name, noun};
use shop_model::{Address, AddressText, Scale, drawn};
use shop_text::{Listed, Memory, Shared, Text};
use std::alloc::Global;

/// The table's number in the drawn words.
const ADDRESSES: u64 = 2;

const LONGEST_STREET: usize = b"200 Kitchen Street".len();

const LONGEST_CITY: usize = b"Parkerton".len();

const ZIP: usize = 5;

/// A number from 1 to 200.
fn house_number(word: u32) -> u64
    ensures { result ≡ 1 + word % 200 }
{
    1 + word as u64 % 200
}

/// `NUMBER NOUN Street`.
#[tactic(auto, unfolding(shop_model::specs::population::Population::street))]
fn street(alloc: Global, number_word: u32, noun_word: u32) -> Result<Text, Memory>
    ensures { IfOk result (λ text. text ≡ spec.street number_word noun_word) }
{
    let mut text = Text::with_capacity(alloc, LONGEST_STREET)?;
    text.push_decimal(house_number(number_word))?;
    text.push(b" ")?;
    text.push(noun(noun_word))?;
    text.push(b" Street")?;
    Ok(text)
}

/// A last name with `ton` behind it.
#[tactic(auto, unfolding(shop_model::specs::population::Population::city))]
fn city(alloc: Global, name_word: u32) -> Result<Text, Memory>
    ensures { IfOk result (λ text. text ≡ spec.city name_word) }
{
    let mut text = Text::with_capacity(alloc, LONGEST_CITY)?;
    text.push(last_name(name_word))?;
    text.push(b"ton")?;
    Ok(text)
}

/// Five digits.
#[tactic(auto, unfolding(shop_model::specs::population::Population::zip))]
fn zip(alloc: Global, word: u32) -> Result<Text, Memory>
    ensures { IfOk result (λ text. text ≡ spec.zip word) }
{
    let mut text = Text::with_capacity(alloc, ZIP)?;
    text.push_decimal(10_000 + word as u64 % 90_000)?;
    Ok(text)
}

/// The address with this id.
#[tactic(auto, unfolding(shop_model::specs::population::Population::address_row))]
fn address_row(alloc: Global, seed: u32, scale: &Scale, id: u32) -> Result<Address, Memory>
    ensures { IfOk result (λ row. row ≡ spec.address_row seed scale.now id) }
{
    let [number, noun_word, name, state, code, country] = drawn::<6>(seed, scale, ADDRESSES, id);
    Ok(Address {
        id,
        text: AddressText {
            street1: street(alloc, number, noun_word)?,
            street2: Text::new(alloc),
            city: city(alloc, name)?,
            state: Text::copy(alloc, adjective(state))?,
            zip: zip(alloc, code)?,
            country: 1 + country % 92,
        },
    })
}

/// The addresses of a shop.
#[tactic(auto, using(shop_model::proofs::cited::Lists::rows_push), unfolding(shop_model::specs::population::Population::addresses_table))]
pub(crate) fn addresses_table(
    alloc: Global,
    seed: u32,
    scale: &Scale,
) -> Result<Listed<Shared<Address>>, Memory>
    ensures { IfOk result (λ table. table ≡ spec.addresses_table seed scale.now) }
{
    let mut table = Listed::with_capacity(alloc, scale.addresses as usize)?;
    for made in 0..scale.addresses {
        let address = address_row(alloc, seed, scale, made + 1)?;
        table.push(Shared::new(alloc, address)?)?;
    }
    Ok(table)
}
