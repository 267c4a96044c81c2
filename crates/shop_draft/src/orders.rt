//! Orders: when they were placed, what they come to, where they ship to and how they were paid.
ghost use Rattle.std.specs.Prelude.{◌++◌, OnOk, codes};
ghost use Rattle.shop_model.specs.declared.page.Block.TheVariants as block;
ghost use Rattle.shop_model.specs.pages.BuyConfirm.{ships_text};
ghost use Rattle.shop_model.specs.pages.OrderDisplay.{placed_text, ship_text, paid_text};
ghost use Rattle.shop_model.specs.pages.PageText.{block_line};
ghost use Rattle.shop_model.specs.pages.Priced.{totals_text};
ghost use Rattle.shop_draft.specs.Drawing.{day_after};
ghost use Rattle.shop_draft.specs.Templates.{Adds, Says};

use crate::{Hole, Template};
use shop_model::{AuthId, CardUse, DAY_LENGTH, Order};
use shop_text::Memory;

impl Template {
    /// Adds the paragraph of the days of an order and of its state.
    pub fn placed(&mut self, order: &Order) -> Result<(), Memory>
        ensures { OnOk result (Says self.old self.new (block_line (block.Para (placed_text order.now)))) }
    {
        self.day(b"<p>Placed ", (order.placed / DAY_LENGTH) as u32)?;
        self.day(b", ships ", order.ship_day)?;
        self.plain(b", status ", order.status.name())?;
        self.put(b"</p>\n")?;
        Ok(())
    }

    /// Adds the paragraph of what an order comes to, all in cents.
    pub fn totals(&mut self, sub: u64, tax: u64, ship: u64, total: u64) -> Result<(), Memory>
        ensures { OnOk result (Says self.old self.new (block_line
            (block.Para (totals_text (record { sub = sub; tax = tax; ship = ship; total = total }))))) }
    {
        self.money(b"<p>Subtotal ", sub)?;
        self.money(b", tax ", tax)?;
        self.money(b", shipping ", ship)?;
        self.money(b", total ", total)?;
        self.put(b"</p>\n")?;
        Ok(())
    }

    /// Adds the paragraph of where an order ships to: a city, and the name of its country.
    pub fn ship_to(&mut self, city: &[u8], country: &[u8]) -> Result<(), Memory>
        ensures { OnOk result (Says self.old self.new (block_line (block.Para (ship_text city.now country.now)))) }
    {
        self.escaped(b"<p>Ship to ", city)?;
        self.escaped(b", ", country)?;
        self.put(b"</p>\n")?;
        Ok(())
    }

    /// Adds the paragraph of a payment.
    pub fn paid(&mut self, card: &CardUse) -> Result<(), Memory>
        ensures { OnOk result (Says self.old self.new (block_line (block.Para (paid_text card.now)))) }
    {
        self.plain(b"<p>Card ", card.card.name())?;
        self.plain(b", authorisation ", card.auth.bytes())?;
        self.put(b"</p>\n")?;
        Ok(())
    }

    /// Adds the paragraph of the customer of a new order and of the day on which it ships: so many days
    /// after that of the settle's stamp, 9999-12-31 at most.
    pub fn ships(&mut self, customer: u32, later: u32) -> Result<(), Memory>
        ensures { OnOk result (Adds self.old self.new
            (λ drawn. block_line (block.Para (ships_text customer (day_after drawn.stamp later))))) }
    {
        self.number(b"<p>Customer ", u64::from(customer))?;
        self.hole(b", ships ", Hole::Day(later))?;
        self.put(b"</p>\n")?;
        Ok(())
    }

    /// Adds the paragraph of the authorisation of a payment.
    pub fn authorised(&mut self, auth: &AuthId) -> Result<(), Memory>
        ensures { OnOk result (Says self.old self.new (block_line (block.Para (codes "Authorisation " ++ auth.now)))) }
    {
        self.plain(b"<p>Authorisation ", auth.bytes())?;
        self.put(b"</p>\n")?;
        Ok(())
    }
}
