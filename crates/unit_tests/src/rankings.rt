ghost use Rattle.std.specs.Prelude.{◌≡◌, ◌≤◌, ◌∷◌, [], IfOk, length, map};
ghost use Rattle.shop_model.specs.rows.Limits.{day_limit};
ghost use Rattle.shop_model.specs.rows.Sound.{Has, Runs};

use shop_model::{Backing, Item, ItemDetails, Subject};
use shop_ranking::{Best, Newest};
use shop_text::{Caption, Listed, Memory, Shared, Text};
use std::alloc::Global;
use std::test::Fail;

/// An item of Arts.
fn item(alloc: Global, id: u32, title: &[u8], published: u32) -> Result<Item, Memory>
    requires { published ≤ day_limit }
    ensures { IfOk result (λ item. item.id ≡ id) }
{
    let details = ItemDetails {
        title: Caption::copy(alloc, title)?,
        author: 1,
        subject: Subject::Arts,
        publisher: Caption::of(Text::new(alloc)),
        about: Caption::of(Text::new(alloc)),
        related: [0; 5],
        thumb: Caption::of(Text::new(alloc)),
        image: Caption::of(Text::new(alloc)),
        srp: 0,
        cost: 0,
        first_stock: 10,
        pages: 1,
        backing: Backing::Used,
    };
    Ok(Item {
        id,
        published,
        stock: 10,
        restocks: 0,
        details: Shared::new(alloc, details)?,
    })
}

/// Three items of Arts, of one day.
fn three(alloc: Global) -> Result<[Item; 3], Memory>
    ensures { IfOk result (λ items. map (λ i. i.id) items ≡ 1 ∷ 2 ∷ 3 ∷ []) }
{
    Ok([
        item(alloc, 1, b"Night", 10)?,
        item(alloc, 2, b"Dawn", 10)?,
        item(alloc, 3, b"Night", 10)?,
    ])
}

/// Whether these items were listed.
fn are(listed: Result<Listed<u32>, Memory>, want: &[u32]) -> Result<bool, Memory> {
    Ok(listed?.as_slice() == want)
}

/// The best sold items of Arts after the units of one are set.
fn sold(alloc: Global, best: &mut Best, item: u32, units: u64) -> Result<Listed<u32>, Memory>
    requires { Has (length best.old.units) item }
    ensures { length best.new.units ≡ length best.old.units }
{
    best.bump(item, units);
    best.top50(alloc, Subject::Arts)
}

/// Whether these are the best sold items of Arts after the units of one are set.
fn are_sold(
    alloc: Global,
    best: &mut Best,
    item: u32,
    units: u64,
    want: &[u32],
) -> Result<bool, Memory>
    requires { Has (length best.old.units) item }
    ensures { length best.new.units ≡ length best.old.units }
{
    are(sold(alloc, best, item, units), want)
}

/// Whether an item has so many units, and there is no best sold item of Travel.
fn has_units(alloc: Global, best: &Best, item: u32, units: u64) -> Result<bool, Memory>
    requires { Has (length best.now.units) item }
{
    let none = are(best.top50(alloc, Subject::Travel), &[])?;
    Ok(none && best.quantity(item) == units)
}

/// Whether three items stand in order as their units are set one after another.
fn stand_as_sold(alloc: Global, best: &mut Best) -> Result<bool, Memory>
    requires { length best.old.units ≡ 3 }
{
    let are_so = [
        are_sold(alloc, best, 2, 5, &[2])?,
        are_sold(alloc, best, 3, 5, &[2, 3])?,
        are_sold(alloc, best, 1, 5, &[1, 2, 3])?,
        are_sold(alloc, best, 3, 6, &[3, 1, 2])?,
        are_sold(alloc, best, 1, 0, &[3, 2])?,
        has_units(alloc, best, 3, 6)?,
    ];
    Ok(are_so == [true; 6])
}

/// Three items, of which none was sold.
fn best_of_three(alloc: Global) -> Result<Best, Memory>
    ensures { IfOk result (λ best. length best.units ≡ 3) }
{
    Best::new(alloc, &three(alloc)?)
}

#[test]
fn best_sold_items_stand_in_order(rt: HostRuntime) -> Result<(), Fail> {
    let mut best = best_of_three(rt.alloc())?;
    assert!(rt; stand_as_sold(rt.alloc(), &mut best)?);
    Ok(())
}

/// The newest items of Arts after the day of one is set.
fn redated(alloc: Global, newest: &mut Newest, item: u32, day: u32) -> Result<Listed<u32>, Memory>
    requires { Has (length newest.old.days) item }
    ensures { length newest.new.days ≡ length newest.old.days }
{
    newest.redate(item, day);
    newest.top50(alloc, Subject::Arts)
}

/// Whether these are the newest items of a subject.
fn are_newest(
    alloc: Global,
    newest: &Newest,
    subject: Subject,
    want: &[u32],
) -> Result<bool, Memory> {
    are(newest.top50(alloc, subject), want)
}

/// Whether these are the newest items of Arts after the day of one is set.
fn are_redated(
    alloc: Global,
    newest: &mut Newest,
    item: u32,
    day: u32,
    want: &[u32],
) -> Result<bool, Memory>
    requires { Has (length newest.old.days) item }
    ensures { length newest.new.days ≡ length newest.old.days }
{
    are(redated(alloc, newest, item, day), want)
}

/// Whether three items stand in order as their days are set one after another, and none of Travel do.
fn stand_as_dated(alloc: Global, newest: &mut Newest) -> Result<bool, Memory>
    requires { length newest.old.days ≡ 3 }
{
    let are_so = [
        are_newest(alloc, newest, Subject::Arts, &[2, 1, 3])?,
        are_redated(alloc, newest, 3, 11, &[3, 2, 1])?,
        are_redated(alloc, newest, 2, 9, &[3, 1, 2])?,
        are_newest(alloc, newest, Subject::Travel, &[])?,
    ];
    Ok(are_so == [true; 4])
}

/// Three items by their days.
fn newest_of_three(alloc: Global) -> Result<Newest, Memory>
    ensures { IfOk result (λ newest. length newest.days ≡ 3) }
{
    Newest::new(alloc, &three(alloc)?)
}

#[test]
fn newest_items_stand_in_order(rt: HostRuntime) -> Result<(), Fail> {
    let mut newest = newest_of_three(rt.alloc())?;
    assert!(rt; stand_as_dated(rt.alloc(), &mut newest)?);
    Ok(())
}

/// Sixty items of Arts; item n came out on day n.
fn sixty(alloc: Global) -> Result<Vec<Item>, Memory>
    ensures size { IfOk result (λ items. length items.items ≡ 60) }
    ensures ids { IfOk result (λ items. Runs (map (λ i. i.id) items.items)) }
{
    let mut items = Vec::new(alloc);
    for before in 0..60 {
        items.push(item(alloc, before + 1, b"Night", before + 1)?)?;
    }
    Ok(items)
}

/// Whether fifty items were listed, and these are the first and the last.
fn are_ends(listed: Result<Listed<u32>, Memory>, first: u32, last: u32) -> Result<bool, Memory> {
    let list = listed?;
    let ids = list.as_slice();
    let ends = (ids.len(), ids.first().copied(), ids.last().copied());
    Ok(ends == (50, Some(first), Some(last)))
}

/// Whether the day of an item puts these first and last of the newest items of Arts.
fn ends_redated(
    alloc: Global,
    newest: &mut Newest,
    item: u32,
    day: u32,
    first: u32,
    last: u32,
) -> Result<bool, Memory>
    requires { Has (length newest.old.days) item }
    ensures { length newest.new.days ≡ length newest.old.days }
{
    are_ends(redated(alloc, newest, item, day), first, last)
}

/// Whether the fiftieth of sixty new items and the next change places.
fn newest_change_places(alloc: Global, newest: &mut Newest) -> Result<bool, Memory>
    requires { length newest.old.days ≡ 60 }
{
    let are_so = [
        are_ends(newest.top50(alloc, Subject::Arts), 60, 11)?,
        ends_redated(alloc, newest, 60, 10, 59, 10)?,
        ends_redated(alloc, newest, 10, 9, 59, 60)?,
    ];
    Ok(are_so == [true; 3])
}

/// Sixty items by their days.
fn newest_of_sixty(alloc: Global) -> Result<Newest, Memory>
    ensures { IfOk result (λ newest. length newest.days ≡ 60) }
{
    Newest::new(alloc, &sixty(alloc)?)
}

#[test]
fn the_fiftieth_new_item_and_the_next_change_places(rt: HostRuntime) -> Result<(), Fail> {
    let mut newest = newest_of_sixty(rt.alloc())?;
    assert!(rt; newest_change_places(rt.alloc(), &mut newest)?);
    Ok(())
}

/// Sixty items, of which item n has 100 units less n.
fn sold_by_id(alloc: Global) -> Result<Best, Memory>
    ensures { IfOk result (λ best. length best.units ≡ 60) }
{
    let mut best = Best::new(alloc, &sixty(alloc)?)?;
    for before in 0..60 {
        best.bump(before + 1, 99 - u64::from(before));
    }
    Ok(best)
}

/// Whether the units of an item put these first and last of the best sold items of Arts.
fn ends_sold(
    alloc: Global,
    best: &mut Best,
    item: u32,
    units: u64,
    first: u32,
    last: u32,
) -> Result<bool, Memory>
    requires { Has (length best.old.units) item }
    ensures { length best.new.units ≡ length best.old.units }
{
    are_ends(sold(alloc, best, item, units), first, last)
}

/// Whether the fiftieth of sixty best sold items and the next change places.
fn best_change_places(alloc: Global, best: &mut Best) -> Result<bool, Memory>
    requires { length best.old.units ≡ 60 }
{
    let are_so = [
        are_ends(best.top50(alloc, Subject::Arts), 1, 50)?,
        ends_sold(alloc, best, 51, 50, 1, 50)?,
        ends_sold(alloc, best, 51, 51, 1, 51)?,
        ends_sold(alloc, best, 51, 0, 1, 50)?,
    ];
    Ok(are_so == [true; 4])
}

#[test]
fn the_fiftieth_best_sold_item_and_the_next_change_places(rt: HostRuntime) -> Result<(), Fail> {
    let mut best = sold_by_id(rt.alloc())?;
    assert!(rt; best_change_places(rt.alloc(), &mut best)?);
    Ok(())
}
