//! Fields, and the forms of the cart, of a search and of an item.
ghost use Rattle.std.specs.Prelude.{◌≡◌, ◌++◌, OnOk, codes, map};
ghost use Rattle.std.specs.List.{flat_map};
ghost use Rattle.shop_text.specs.Texts.{escape};
ghost use Rattle.shop_model.specs.pages.AdminRequest.{admin_form};
ghost use Rattle.shop_model.specs.pages.ShoppingCart.{line_field};
ghost use Rattle.shop_model.specs.pages.PageText.{block_line, field_text};
ghost use Rattle.shop_model.specs.pages.SearchRequest as show;
ghost use Rattle.shop_model.specs.pages.Targets as spec;
ghost use Rattle.shop_model.specs.declared.page.Block.TheVariants as block;
ghost use Rattle.shop_draft.specs.Drawing.{id_at, ids_at, maybe_at};
ghost use Rattle.shop_draft.specs.Templates.{Adds, Says};

use crate::{Id, PageIds, Template};
use shop_model::Item;
use shop_text::Memory;

impl Template {
    /// Adds the field of an id; its name is plain.
    #[tactic(auto, unfolding(shop_model::specs::pages::PageText::field_text))]
    #[inline(always)]
    fn known_field(&mut self, name: &[u8], id: Id) -> Result<(), Memory>
        requires { escape name.now ≡ name.now }
        ensures { OnOk result (Adds self.old self.new (λ drawn. field_text (spec.number_field name.now (id_at drawn id)))) }
    {
        self.put(b"<input name=\"")?;
        self.put_bytes(name)?;
        self.id(b"\" value=\"", id)?;
        self.put(b"\">")?;
        Ok(())
    }

    /// Adds the field of an id, where there is one; its name is plain.
    #[inline(always)]
    fn id_field(&mut self, name: &[u8], id: Option<Id>) -> Result<(), Memory>
        requires { escape name.now ≡ name.now }
        ensures { OnOk result (Adds self.old self.new (λ drawn. flat_map field_text (spec.id_field name.now (maybe_at drawn id)))) }
    {
        match id {
            None => {}
            Some(id) => self.known_field(name, id)?,
        }
        Ok(())
    }

    /// Adds the fields of the ids that a page hands on.
    #[tactic(auto, unfolding(shop_model::specs::pages::Targets::id_fields))]
    pub fn id_fields(&mut self, ids: PageIds) -> Result<(), Memory>
        ensures { OnOk result (Adds self.old self.new (λ drawn. flat_map field_text (spec.id_fields (ids_at drawn ids)))) }
    {
        self.id_field(b"c", ids.c)?;
        self.id_field(b"cart", ids.cart)?;
        Ok(())
    }

    /// Adds the field of a line's quantity.
    #[tactic(auto, using(shop_text::proofs::cited::Plain::escape_append), unfolding(shop_model::specs::pages::PageText::field_text))]
    #[inline(always)]
    fn line_field(&mut self, line: (u32, u32)) -> Result<(), Memory>
        ensures { OnOk result (Says self.old self.new (field_text (line_field line))) }
    {
        self.number(b"<input name=\"qty_", u64::from(line.0))?;
        self.number(b"\" value=\"", u64::from(line.1))?;
        self.put(b"\">")?;
        Ok(())
    }

    fn line_fields(&mut self, lines: &[(u32, u32)]) -> Result<(), Memory>
        ensures { OnOk result (Says self.old self.new (flat_map field_text (map line_field lines.now))) }
    {
        for line in lines {
            self.line_field(*line)?;
        }
        Ok(())
    }

    /// Adds the form of a cart with these lines.
    #[tactic(auto, unfolding(shop_model::specs::pages::PageText::block_text))]
    pub fn cart_form(&mut self, lines: &[(u32, u32)], ids: PageIds) -> Result<(), Memory>
        ensures { OnOk result (Adds self.old self.new (λ drawn. block_line
            (block.Form (codes "/shopping_cart") (map line_field lines.now ++ spec.id_fields (ids_at drawn ids))))) }
    {
        self.put(b"<form action=\"/shopping_cart\">")?;
        self.line_fields(lines)?;
        self.id_fields(ids)?;
        self.put(b"</form>\n")?;
        Ok(())
    }

    /// Adds the form of a search by title.
    #[tactic(auto, unfolding(shop_model::specs::pages::PageText::block_text, shop_model::specs::pages::PageText::field_text, shop_model::specs::pages::SearchRequest::search_form))]
    pub fn search_form(&mut self, ids: PageIds) -> Result<(), Memory>
        ensures { OnOk result (Adds self.old self.new (λ drawn. block_line (show.search_form (ids_at drawn ids)))) }
    {
        self.put(
            b"<form action=\"/search_results\"><input name=\"kind\" value=\"title\"><input name=\"text\" value=\"\">",
        )?;
        self.id_fields(ids)?;
        self.put(b"</form>\n")?;
        Ok(())
    }

    /// Adds the form in which an item is changed.
    pub fn admin_form(&mut self, item: &Item, ids: PageIds) -> Result<(), Memory>
        ensures { OnOk result (Adds self.old self.new (λ drawn. block_line (admin_form item.now (ids_at drawn ids)))) }
    {
        let details = item.details.get();
        self.number(
            b"<form action=\"/admin_confirm\"><input name=\"item\" value=\"",
            u64::from(item.id),
        )?;
        self.number(b"\"><input name=\"cost\" value=\"", details.cost)?;
        self.text(b"\"><input name=\"image\" value=\"", &details.image)?;
        self.text(b"\"><input name=\"thumb\" value=\"", &details.thumb)?;
        self.put(b"\">")?;
        self.id_fields(ids)?;
        self.put(b"</form>\n")?;
        Ok(())
    }
}
