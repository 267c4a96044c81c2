ghost use Rattle.std.specs.Cmp.{partial_equiv_from_equiv, partial_order_from_agreeing_total};
ghost use Rattle.std.specs.Cmp.Rules.{comparing};
ghost use Rattle.std.specs.Ordering.{as_partial_cmp, eq_by_cmp};
ghost use Rattle.std.specs.Prelude.{IfOk, map, refl};
ghost use Rattle.std.proofs.Common.{rules};
ghost use Rattle.std.proofs.lemmas.Cmp.{eq_by_cmp_equiv};
ghost use Rattle.shop_model.specs.lists.Catalogues.{by_title, naming};
ghost use Rattle.shop_search.specs.Order.{by_title_total, IsListed};

use shop_model::Item;
use shop_text::Memory;
use std::alloc::Global;
use std::cmp::Ordering;
use std::marker::Model;

/// An item, in the order of lists.
#[derive(Drop)]
pub(crate) struct Ranked<'a> {
    pub(crate) item: &'a Item,
}

impl<'a> Model for Ranked<'a> {
    ghost use Rattle.shop_model.specs.lists.Catalogues.{Naming, naming};

    ghost Value = { Naming };

    ghost view = { λ r. naming r.item.now };
}

impl<'a> PartialEq for Ranked<'a> {
    ghost eq = { eq_by_cmp by_title };

    ghost laws = { partial_equiv_from_equiv (eq_by_cmp_equiv by_title_total) };

    fn eq(&self, other: &Ranked<'a>) -> bool {
        self.cmp(other).is_eq()
    }
}

impl<'a> Eq for Ranked<'a> {
    ghost laws = { eq_by_cmp_equiv by_title_total };
}

impl<'a> PartialOrd for Ranked<'a> {
    ghost partial_cmp = { as_partial_cmp by_title };

    ghost laws = { partial_order_from_agreeing_total by_title by_title_total (λ x y. refl) (λ x y. refl) };

    fn partial_cmp(&self, other: &Ranked<'a>) -> Option<Ordering> {
        Some(self.cmp(other))
    }
}

impl<'a> Ord for Ranked<'a> {
    ghost cmp = { by_title };

    ghost total = { by_title_total };

    ghost matches_partial_cmp = { Prim.search (comparing, rules) };

    ghost matches_eq = { Prim.search (comparing, rules) };

    fn cmp(&self, other: &Ranked<'a>) -> Ordering {
        let (item, other) = (self.item, other.item);
        let title = item.details.get().title.bytes();
        let titles = title.cmp(other.details.get().title.bytes());
        titles.then(item.id.cmp(&other.id))
    }
}

/// The items in the order of lists.
pub(crate) fn in_list_order<'a>(alloc: Global, items: &'a [Item]) -> Result<Vec<Ranked<'a>>, Memory>
    ensures { IfOk result (λ ranked. IsListed (map naming items.now) ranked.items) }
{
    let mut ranked = Vec::with_capacity(alloc, items.len())?;
    for item in items {
        ranked.push(Ranked { item })?;
    }
    ranked.sort()?;
    Ok(ranked)
}
