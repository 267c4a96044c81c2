ghost use Rattle.std.specs.Prelude.{◌≡◌, ◌≤◌, ◌<◌, [], codes, IfOk};
ghost use Rattle.shop_model.specs.population.Population as spec;
ghost use Rattle.shop_model.specs.population.Words.{entry, publishers};

use shop_model::words::{adjective, noun, publisher};
use shop_model::{Backing, Item, ItemDetails, Scale, Subject, drawn};
use shop_text::{Caption, Listed, Memory, Shared, Text};
use std::alloc::Global;

/// The table's number in the drawn words.
const ITEMS: u64 = 5;

const LONGEST_TITLE: usize = b"Distant Kitchen OGBABABABA".len();

const LONGEST_ABOUT: usize = b"About a Distant Kitchen.".len();

const LONGEST_PICTURE: usize = b"/img/thumb_10000.gif".len();

/// `ADJECTIVE NOUN SYLLABLES`.
#[tactic(auto, unfolding(shop_model::specs::population::Population::title))]
fn title(alloc: Global, adjective_word: u32, noun_word: u32, id: u32) -> Result<Caption, Memory>
    ensures { IfOk result (λ text. text ≡ spec.title adjective_word noun_word id) }
{
    let mut text = Text::with_capacity(alloc, LONGEST_TITLE)?;
    text.push(adjective(adjective_word))?;
    text.push(b" ")?;
    text.push(noun(noun_word))?;
    text.push(b" ")?;
    text.push_digsyl(id)?;
    Ok(Caption::of(text))
}

/// `About a ADJECTIVE NOUN.`
#[tactic(auto, unfolding(shop_model::specs::population::Population::about))]
fn about(alloc: Global, adjective_word: u32, noun_word: u32) -> Result<Caption, Memory>
    ensures { IfOk result (λ text. text ≡ spec.about adjective_word noun_word) }
{
    let mut text = Text::with_capacity(alloc, LONGEST_ABOUT)?;
    text.push(b"About a ")?;
    text.push(adjective(adjective_word))?;
    text.push(b" ")?;
    text.push(noun(noun_word))?;
    text.push(b".")?;
    Ok(Caption::of(text))
}

/// The path of a picture: the front, the id's digits and `.gif`.
#[tactic(auto, unfolding(shop_model::specs::population::Population::picture))]
fn picture(alloc: Global, front: &[u8], id: u32) -> Result<Caption, Memory>
    ensures { IfOk result (λ text. text ≡ spec.picture front.now id) }
{
    let mut text = Text::with_capacity(alloc, LONGEST_PICTURE)?;
    text.push(front)?;
    text.push_decimal(id as u64)?;
    text.push(b".gif")?;
    Ok(Caption::of(text))
}

/// The five items that follow this one in cyclic order.
#[tactic(auto, unfolding(shop_model::specs::population::Population::followers))]
fn followers(items: u32, id: u32) -> [u32; 5]
    requires some { 0 < items }
    requires small { id ≤ 10_000 }
    ensures { result ≡ spec.followers items id }
{
    [
        1 + id % items,
        1 + (id + 1) % items,
        1 + (id + 2) % items,
        1 + (id + 3) % items,
        1 + (id + 4) % items,
    ]
}

/// The recommended price, in cents.
#[tactic(auto, unfolding(shop_model::specs::population::Population::srp))]
fn srp(word: u32) -> u64
    ensures value { result ≡ spec.srp word }
    ensures bound { result < 10_000 }
{
    100 + (word % 9900) as u64
}

/// The price, in cents: the recommended one less 0 to 50 per cent, rounded down.
#[tactic(auto, unfolding(shop_model::specs::population::Population::cost))]
fn cost(srp_word: u32, discount_word: u32) -> u64
    ensures value { result ≡ spec.cost srp_word discount_word }
    ensures bound { result < 10_000 }
{
    srp(srp_word) * (100 - (discount_word % 51) as u64) / 100
}

#[tactic(auto, unfolding(shop_model::specs::population::Population::stock))]
fn stock(word: u32) -> u32
    ensures value { result ≡ spec.stock word }
    ensures bound { result ≤ 30 }
{
    10 + word % 21
}

/// What pages show of an item in words and pictures.
#[derive(Drop)]
struct ItemTexts {
    title: Caption,
    publisher: Caption,
    about: Caption,
    thumb: Caption,
    image: Caption,
}

/// The texts of the item with this id, by the drawn words of its title, its publisher and what it is about.
fn texts_of(
    alloc: Global,
    id: u32,
    title_adjective: u32,
    title_noun: u32,
    house: u32,
    about_adjective: u32,
    about_noun: u32,
) -> Result<ItemTexts, Memory>
    ensures title { IfOk result (λ texts. texts.title ≡ spec.title title_adjective title_noun id) }
    ensures publisher { IfOk result (λ texts. texts.publisher ≡ entry [] publishers house) }
    ensures about { IfOk result (λ texts. texts.about ≡ spec.about about_adjective about_noun) }
    ensures thumb { IfOk result (λ texts. texts.thumb ≡ spec.picture (codes "/img/thumb_") id) }
    ensures image { IfOk result (λ texts. texts.image ≡ spec.picture (codes "/img/image_") id) }
{
    Ok(ItemTexts {
        title: title(alloc, title_adjective, title_noun, id)?,
        publisher: Caption::copy(alloc, publisher(house))?,
        about: about(alloc, about_adjective, about_noun)?,
        thumb: picture(alloc, b"/img/thumb_", id)?,
        image: picture(alloc, b"/img/image_", id)?,
    })
}

/// The item with this id.
#[tactic(auto, unfolding(shop_model::specs::population::Population::item_row))]
fn item_row(alloc: Global, seed: u32, scale: &Scale, id: u32) -> Result<Item, Memory>
    requires first { 1 ≤ id }
    requires last { id ≤ 10_000 }
    ensures { IfOk result (λ row. row ≡ spec.item_row seed scale.now id) }
{
    let [
        title_adjective,
        title_noun,
        subject,
        day,
        house,
        price,
        discount,
        level,
        pages,
        backing,
        about_adjective,
        about_noun,
    ] = drawn::<12>(seed, scale, ITEMS, id);
    let texts = texts_of(
        alloc,
        id,
        title_adjective,
        title_noun,
        house,
        about_adjective,
        about_noun,
    )?;
    let details = ItemDetails {
        title: texts.title,
        author: 1 + (id - 1) % scale.authors,
        subject: Subject::picked(subject),
        publisher: texts.publisher,
        about: texts.about,
        related: followers(scale.items, id),
        thumb: texts.thumb,
        image: texts.image,
        srp: srp(price),
        cost: cost(price, discount),
        first_stock: stock(level),
        pages: 20 + pages % 9980,
        backing: Backing::picked(backing),
    };
    Ok(Item {
        id,
        published: 3652 + day % 9000,
        stock: stock(level),
        restocks: 0,
        details: Shared::new(alloc, details)?,
    })
}

/// The items of a shop.
#[tactic(auto, using(shop_model::proofs::cited::Lists::rows_push), unfolding(shop_model::specs::population::Population::items_table))]
pub(crate) fn items_table(alloc: Global, seed: u32, scale: &Scale) -> Result<Listed<Item>, Memory>
    ensures { IfOk result (λ table. table ≡ spec.items_table seed scale.now) }
{
    let mut table = Listed::with_capacity(alloc, scale.items as usize)?;
    for made in 0..scale.items {
        table.push(item_row(alloc, seed, scale, made + 1)?)?;
    }
    Ok(table)
}
