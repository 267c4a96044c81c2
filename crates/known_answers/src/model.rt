//! Names, numbers, sizes, drawn words, refusals and carts.
use crate::answers::{answer, heading, text_of};
use crate::stop::Stop;
use shop_model::*;
use shop_pages::page_bytes;
use shop_text::{Listed, Memory, Shared};
use std::alloc::Global;

pub fn print(rt: &(impl Print + AllocGlobal)) -> Result<(), Stop> {
    print_subjects(rt)?;
    print_scales(rt)?;
    print_desk_words(rt)?;
    print_pcg_words(rt)?;
    print_names(rt)?;
    print_authorisations(rt)?;
    print_refusals(rt)?;
    print_refusal_page(rt)?;
    print_cart(rt)
}

/// For each subject its number, what its name gives, and what the word 24 above its number picks.
fn print_subjects(rt: &impl Print) -> Result<(), Stop> {
    heading(rt, "subjects have names and numbers")?;
    for subject in Subject::all() {
        let (number, found) = (subject.number(), Subject::of(subject.name()));
        let picked = Subject::picked(u32::from(number) + 24);
        answer(rt, &text_of(subject.name()), &(number, found, picked))?;
    }
    for name in ["", "ART", "arts", "ARTS ", "TRAVELS"] {
        answer(rt, &name, &Subject::of(name.as_bytes()))?;
    }
    Ok(())
}

fn print_scales(rt: &impl Print) -> Result<(), Stop> {
    heading(rt, "scales have sizes")?;
    answer(rt, &"desk", &Scale::desk())?;
    for (items, ebs) in [
        (1000, 1),
        (10_000, 10),
        (100, 1),
        (1001, 1),
        (1000, 0),
        (1000, 11),
    ] {
        answer(rt, &(items, ebs), &Scale::of(items, ebs))?;
    }
    Ok(())
}

fn print_desk_words(rt: &impl Print) -> Result<(), Stop> {
    heading(rt, "the desk draws sums")?;
    let desk = Scale::desk();
    answer(rt, &"four", &drawn::<4>(0, &desk, 5, 1))?;
    answer(rt, &"word 11", &word(0, &desk, 5, 1, 11))?;
    answer(rt, &"the last", &word(u32::MAX, &desk, 5, 1, u64::MAX))
}

/// The second word of a row.
fn second_word(scale: &Scale) -> u32 {
    let mut words = Words::new(42, scale, 5, 54);
    words.next();
    words.next()
}

/// The words come from the reference generator of PCG's C code, run by hand.
fn print_pcg_words(rt: &impl Print) -> Result<(), Stop> {
    heading(rt, "the other scales draw pcg words")?;
    let scale = Scale::of(1000, 1).ok_or(Stop::NoScale)?;
    answer(rt, &"the first", &word(42, &scale, 0, 54, 0))?;
    answer(rt, &"three", &drawn::<3>(42, &scale, 5, 54))?;
    answer(rt, &"the second", &second_word(&scale))?;
    answer(rt, &"word 1000", &word(7, &scale, 16, 3, 1000))?;
    answer(rt, &"the last", &word(u32::MAX, &scale, 17, u32::MAX, 0))
}

fn print_names(rt: &impl Print) -> Result<(), Stop> {
    heading(rt, "words pick names")?;
    let names = [
        ("backing 9", Backing::picked(9).name()),
        ("card type 6", CardType::picked(6).name()),
        ("ship type 9", ShipType::picked(9).name()),
        ("order state 6", OrderState::picked(6).name()),
        ("adjective 18", words::adjective(18)),
        ("noun 31", words::noun(31)),
        ("first name 11", words::first_name(11)),
        ("last name 21", words::last_name(21)),
        ("publisher 8", words::publisher(8)),
    ];
    for (what, name) in names {
        answer(rt, &what, &text_of(name))?;
    }
    Ok(())
}

fn print_authorisations(rt: &impl Print) -> Result<(), Stop> {
    heading(rt, "authorisations have fifteen digits")?;
    for number in [57_058_371_334, 0, 999_999_999_999_999] {
        answer(rt, &number, &text_of(AuthId::of(number).bytes()))?;
    }
    Ok(())
}

const REFUSALS: [Refusal; 29] = [
    Refusal::BadRequest,
    Refusal::BadParameter(Parameter::C),
    Refusal::BadParameter(Parameter::Cart),
    Refusal::BadParameter(Parameter::Item),
    Refusal::BadParameter(Parameter::Qty),
    Refusal::BadParameter(Parameter::Subject),
    Refusal::BadParameter(Parameter::Kind),
    Refusal::BadParameter(Parameter::Text),
    Refusal::EmptyCart,
    Refusal::FullCart,
    Refusal::FullLine,
    Refusal::FullShop,
    Refusal::CardReused,
    Refusal::CardStolen,
    Refusal::CardOverLimit,
    Refusal::WrongPassword,
    Refusal::NoPage,
    Refusal::NoItem,
    Refusal::NoAuthor,
    Refusal::NoCart,
    Refusal::NoCustomer,
    Refusal::NoUserName,
    Refusal::NotGetOrPost,
    Refusal::LargeBody,
    Refusal::LargeHead,
    Refusal::TransferEncoding,
    Refusal::GatewayFailed,
    Refusal::RowsKeptChanging,
    Refusal::FullLog,
];

fn print_refusals(rt: &impl Print) -> Result<(), Stop> {
    heading(rt, "refusals say why")?;
    for refusal in REFUSALS {
        let (phrase, text) = (text_of(refusal.phrase()), text_of(refusal.text()));
        answer(rt, &refusal, &(refusal.status(), phrase, text))?;
    }
    Ok(())
}

fn print_refusal_page(rt: &(impl Print + AllocGlobal)) -> Result<(), Stop> {
    print_page(rt, &refusal_page(rt.alloc(), Refusal::NoItem)?)
}

fn print_page(rt: &(impl Print + AllocGlobal), page: &Page) -> Result<(), Stop> {
    let html = page_bytes(rt.alloc(), page)?;
    answer(rt, &page.status, &text_of(html.bytes()))
}

/// A cart's second owner.
fn shared_cart(alloc: Global) -> Result<Cart, Memory> {
    let lines = Listed::from_vec(Vec::from_slice(alloc, &[(7, 2), (3, 999)])?);
    let lines = Shared::new(alloc, lines)?;
    Cart { id: 9, lines }.share()
}

fn print_cart(rt: &(impl Print + AllocGlobal)) -> Result<(), Stop> {
    heading(rt, "a cart is shared")?;
    let cart = shared_cart(rt.alloc())?;
    answer(rt, &cart.id, &cart.lines.get().as_slice())
}
