//! Links, and the ids that a page hands on.
ghost use Rattle.std.specs.Prelude.{◌≡◌, OnOk, codes};
ghost use Rattle.std.specs.List.{flat_map};
ghost use Rattle.shop_text.specs.Texts.{escape};
ghost use Rattle.shop_model.specs.pages.PageText.{block_line};
ghost use Rattle.shop_model.specs.pages.Targets as spec;
ghost use Rattle.shop_draft.specs.Drawing.{ids_at, maybe_at};
ghost use Rattle.shop_draft.specs.Links.{AddsIds, links_with, marked, link_front, ids_behind};
ghost use Rattle.shop_draft.specs.Templates.{Adds, Says};

use crate::tail::Sign;
use crate::{Id, ItemLinks, PageIds, Template};
use shop_model::{IdsAsked, Subject};
use shop_text::{Caption, Memory};

impl Template {
    /// Adds an id behind its mark, where there is one.
    #[inline(always)]
    fn marked<const N: usize>(&mut self, mark: &[u8; N], id: Option<Id>) -> Result<(), Memory>
        ensures { OnOk result (Adds self.old self.new (λ drawn. marked mark.now (maybe_at drawn id))) }
    {
        match id {
            None => {}
            Some(id) => self.id(mark, id)?,
        }
        Ok(())
    }

    /// Adds ids behind a sign, one after another.
    #[tactic(auto, using(shop_text::proofs::cited::Plain::escape_append), unfolding(shop_model::specs::pages::Targets::pairs, shop_model::specs::pages::Targets::id_fields))]
    #[inline(never)]
    fn put_each_id(&mut self, sign: Sign, ids: PageIds) -> Result<(), Memory>
        ensures { OnOk result (AddsIds self.old self.new sign ids) }
    {
        match ids.c {
            None => match ids.cart {
                None => {}
                Some(cart) => {
                    self.put_bytes(sign.markup())?;
                    self.id(b"cart=", cart)?;
                }
            },
            Some(c) => {
                self.put_bytes(sign.markup())?;
                self.id(b"c=", c)?;
                self.marked(b"&amp;cart=", ids.cart)?;
            }
        }
        Ok(())
    }

    /// Adds ids behind a sign. Where there are none nothing is looked up.
    #[tactic(auto, unfolding(shop_model::specs::pages::Targets::pairs, shop_model::specs::pages::Targets::id_fields))]
    #[inline(always)]
    fn put_ids(&mut self, sign: Sign, ids: PageIds) -> Result<(), Memory>
        ensures { OnOk result (AddsIds self.old self.new sign ids) }
    {
        if ids.is_empty() {
            return Ok(());
        }
        if self.put_known_ids(sign, ids)? {
            return Ok(());
        }
        self.put_each_id(sign, ids)
    }

    /// Adds the ids as the first parameters of a target.
    #[inline(always)]
    fn first_ids(&mut self, ids: PageIds) -> Result<(), Memory>
        ensures { OnOk result (Adds self.old self.new (λ drawn. ids_behind (codes "?") (ids_at drawn ids))) }
    {
        self.put_ids(Sign::First, ids)
    }

    /// Adds the ids behind other parameters of a target.
    #[inline(always)]
    fn more_ids(&mut self, ids: PageIds) -> Result<(), Memory>
        ensures { OnOk result (Adds self.old self.new (λ drawn. ids_behind (codes "&") (ids_at drawn ids))) }
    {
        self.put_ids(Sign::More, ids)
    }

    /// Adds links that were written before, with the ids of a request. Where it has none the text stands as it is.
    #[tactic(auto, unfolding(shop_model::specs::pages::Targets::pairs, shop_model::specs::pages::Targets::id_fields))]
    pub fn put_links(&mut self, links: &ItemLinks, ids: IdsAsked) -> Result<(), Memory>
        ensures { OnOk result (Says self.old self.new (links_with ids links.now)) }
    {
        match (ids.c, ids.cart) {
            (None, None) => self.put_bytes(links.text())?,
            _ => self.put_woven(links, ids)?,
        }
        Ok(())
    }

    /// A link with no parameters but the ids; path and label are plain.
    #[tactic(auto, using(shop_text::proofs::cited::Plain::escape_append), unfolding(shop_model::specs::pages::PageText::block_text))]
    #[inline(always)]
    pub fn plain_link(&mut self, path: &[u8], ids: PageIds, label: &[u8]) -> Result<(), Memory>
        requires path { escape path.now ≡ path.now }
        requires label { escape label.now ≡ label.now }
        ensures { OnOk result (Adds self.old self.new (λ drawn. block_line (spec.plain_link path.now (ids_at drawn ids) label.now))) }
    {
        self.put(b"<a href=\"")?;
        self.put_bytes(path)?;
        self.first_ids(ids)?;
        self.put(b"\">")?;
        self.put_bytes(label)?;
        self.put(b"</a>\n")?;
        Ok(())
    }

    /// A link about an item up to its label; the path is plain.
    #[tactic(auto, using(shop_text::proofs::cited::Plain::escape_append), unfolding(shop_model::specs::pages::Targets::pairs, crate::specs::Links::link_front))]
    #[inline(always)]
    pub fn item_front(&mut self, path: &[u8], item: u32, ids: PageIds) -> Result<(), Memory>
        requires path { escape path.now ≡ path.now }
        ensures { OnOk result (Adds self.old self.new (λ drawn. link_front (spec.item_target path.now item (ids_at drawn ids)))) }
    {
        self.put(b"<a href=\"")?;
        self.put_bytes(path)?;
        self.number(b"?item=", u64::from(item))?;
        self.more_ids(ids)?;
        self.put(b"\">")?;
        Ok(())
    }

    /// A link about an item; path and label are plain.
    #[tactic(auto, unfolding(shop_model::specs::pages::PageText::block_text, crate::specs::Links::link_front))]
    #[inline(always)]
    pub fn item_link(
        &mut self,
        path: &[u8],
        item: u32,
        ids: PageIds,
        label: &[u8],
    ) -> Result<(), Memory>
        requires path { escape path.now ≡ path.now }
        requires label { escape label.now ≡ label.now }
        ensures { OnOk result (Adds self.old self.new (λ drawn. block_line (spec.item_link path.now item (ids_at drawn ids) label.now))) }
    {
        self.item_front(path, item, ids)?;
        self.put_bytes(label)?;
        self.put(b"</a>\n")?;
        Ok(())
    }

    /// A link to the page of an item up to its label.
    #[tactic(auto, using(shop_text::proofs::cited::Plain::escape_append), unfolding(shop_model::specs::pages::Targets::pairs, crate::specs::Links::link_front))]
    #[inline(always)]
    fn detail_front(&mut self, item: u32, ids: PageIds) -> Result<(), Memory>
        ensures { OnOk result (Adds self.old self.new (λ drawn. link_front (spec.item_target (codes "/product_detail") item (ids_at drawn ids)))) }
    {
        self.number(b"<a href=\"/product_detail?item=", u64::from(item))?;
        self.more_ids(ids)?;
        self.put(b"\">")?;
        Ok(())
    }

    /// A link to the page of an item, labelled with its title.
    #[tactic(auto, unfolding(shop_model::specs::pages::PageText::block_text, crate::specs::Links::link_front))]
    pub fn title_link(&mut self, item: u32, ids: PageIds, title: &Caption) -> Result<(), Memory>
        ensures { OnOk result (Adds self.old self.new (λ drawn. block_line (spec.item_link (codes "/product_detail") item (ids_at drawn ids) title.now))) }
    {
        self.detail_front(item, ids)?;
        self.text(b"", title)?;
        self.put(b"</a>\n")?;
        Ok(())
    }

    /// A link about a subject up to its label; the path is plain.
    #[tactic(auto, using(shop_text::proofs::cited::Plain::escape_append), unfolding(shop_model::specs::pages::Targets::pairs, crate::specs::Links::link_front))]
    #[inline(always)]
    fn subject_front(&mut self, path: &[u8], subject: Subject, ids: PageIds) -> Result<(), Memory>
        requires path { escape path.now ≡ path.now }
        ensures { OnOk result (Adds self.old self.new (λ drawn. link_front (spec.subject_target path.now subject (ids_at drawn ids)))) }
    {
        self.put(b"<a href=\"")?;
        self.put_bytes(path)?;
        self.plain(b"?subject=", subject.name())?;
        self.more_ids(ids)?;
        self.put(b"\">")?;
        Ok(())
    }

    /// A link about a subject, whose name ends the label; path and label are plain.
    #[tactic(auto, using(shop_text::proofs::cited::Plain::escape_append), unfolding(shop_model::specs::pages::PageText::block_text, crate::specs::Links::link_front))]
    pub fn subject_link(
        &mut self,
        path: &[u8],
        subject: Subject,
        ids: PageIds,
        label: &[u8],
    ) -> Result<(), Memory>
        requires path { escape path.now ≡ path.now }
        requires label { escape label.now ≡ label.now }
        ensures { OnOk result (Adds self.old self.new (λ drawn. block_line (spec.subject_link path.now subject (ids_at drawn ids) label.now))) }
    {
        self.subject_front(path, subject, ids)?;
        self.put_bytes(label)?;
        self.put_bytes(subject.name())?;
        self.put(b"</a>\n")?;
        Ok(())
    }

    /// The links that end each page.
    #[tactic(auto, unfolding(shop_model::specs::pages::Targets::nav))]
    pub fn nav(&mut self, ids: PageIds) -> Result<(), Memory>
        ensures { OnOk result (Adds self.old self.new (λ drawn. flat_map block_line (spec.nav (ids_at drawn ids)))) }
    {
        self.put(b"<a href=\"/home")?;
        self.first_ids(ids)?;
        self.put(b"\">Home</a>\n<a href=\"/search_request")?;
        self.first_ids(ids)?;
        self.put(b"\">Search</a>\n<a href=\"/shopping_cart")?;
        self.first_ids(ids)?;
        self.put(b"\">Cart</a>\n")?;
        Ok(())
    }
}
