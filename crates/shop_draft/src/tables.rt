//! Cells, and the rows of priced lines.
ghost use Rattle.std.specs.Prelude.{◌≡◌, ◌≤◌, OnOk, decimal};
ghost use Rattle.shop_text.specs.Texts.{cents_text};
ghost use Rattle.shop_model.specs.declared.tables.Tables.{Tables};
ghost use Rattle.shop_model.specs.pages.PageText.{cell_text, row_text};
ghost use Rattle.shop_model.specs.pages.Priced.{priced_cells};
ghost use Rattle.shop_model.specs.rows.Limits.{price_limit, quantity_limit};
ghost use Rattle.shop_model.specs.rows.Lookups.{title_of};
ghost use Rattle.shop_draft.specs.Templates.{Says};

use crate::Template;
use shop_text::{Caption, Memory};

impl Template {
    /// Adds a cell with a text.
    #[inline(always)]
    pub fn text_cell(&mut self, text: &Caption) -> Result<(), Memory>
        ensures { OnOk result (Says self.old self.new (cell_text text.now)) }
    {
        self.text(b"<td>", text)?;
        self.put(b"</td>")?;
        Ok(())
    }

    /// Adds a cell with a number.
    #[inline(always)]
    pub fn number_cell(&mut self, number: u64) -> Result<(), Memory>
        ensures { OnOk result (Says self.old self.new (cell_text (decimal number))) }
    {
        self.number(b"<td>", number)?;
        self.put(b"</td>")?;
        Ok(())
    }

    /// Adds a cell with an amount in cents.
    #[inline(always)]
    pub fn money_cell(&mut self, cents: u64) -> Result<(), Memory>
        ensures { OnOk result (Says self.old self.new (cell_text (cents_text cents))) }
    {
        self.money(b"<td>", cents)?;
        self.put(b"</td>")?;
        Ok(())
    }

    /// Adds the row of so many units of an item, by its title and the cost of one in cents.
    #[tactic(auto, unfolding(shop_model::specs::pages::Priced::priced_cells))]
    pub fn line_row(
        &mut self,
        item: u32,
        title: &Caption,
        quantity: u32,
        cost: u64,
    ) -> Result<(), Memory>
        requires quantity { quantity ≤ quantity_limit }
        requires cost { cost ≤ price_limit }
        ensures { OnOk result ((t : Tables) → title_of t item ≡ title.now
            → Says self.old self.new (row_text (priced_cells t item quantity cost))) }
    {
        self.number(b"<tr><td>", u64::from(item))?;
        self.text(b"</td><td>", title)?;
        self.number(b"</td><td>", u64::from(quantity))?;
        self.money(b"</td><td>", cost)?;
        self.money(b"</td><td>", cost * u64::from(quantity))?;
        self.put(b"</td></tr>")?;
        Ok(())
    }
}
