//! Customers: how they log in and pay, what they are asked, and who they are.
ghost use Rattle.std.specs.Prelude.{◌≡◌, ◌++◌, Option, OnOk};
ghost use Rattle.shop_text.specs.Texts.{escape};
ghost use Rattle.shop_model.specs.declared.page.Block.TheVariants as block;
ghost use Rattle.shop_model.specs.pages.BuyRequest.{buyer_text, payment_form};
ghost use Rattle.shop_model.specs.pages.CustomerRegistration.{newcomer_form};
ghost use Rattle.shop_model.specs.pages.Forms.{login_form, user_of};
ghost use Rattle.shop_model.specs.pages.PageText.{block_line};
ghost use Rattle.shop_model.specs.rows.Rows.{CustomerRow};
ghost use Rattle.shop_history.specs.declared.acts.Drawn.{Drawn};
ghost use Rattle.shop_draft.specs.Customers.{HasNames, IsBuyer};
ghost use Rattle.shop_draft.specs.Drawing.{ids_at, user_at, user_text};
ghost use Rattle.shop_draft.specs.Templates.{Adds, Says, filled};

use crate::{Id, PageIds, Template};
use shop_text::Memory;

impl Template {
    /// Adds the user name of the customer with an id, where there is one.
    #[inline(always)]
    fn put_maybe_user(&mut self, customer: Option<u32>) -> Result<(), Memory>
        ensures { OnOk result (Says self.old self.new (escape (user_text customer))) }
    {
        match customer {
            None => {}
            Some(customer) => self.put_known_user(customer)?,
        }
        Ok(())
    }

    /// Adds the form in which a customer logs in, with the user name of the one whose id is given; the
    /// path is plain.
    pub fn login_form(
        &mut self,
        path: &[u8],
        customer: Option<u32>,
        ids: PageIds,
    ) -> Result<(), Memory>
        requires { escape path.now ≡ path.now }
        ensures { OnOk result ((row : Option CustomerRow) → user_of row ≡ user_text customer
            → Adds self.old self.new (λ drawn. block_line (login_form path.now row (ids_at drawn ids)))) }
    {
        self.plain(b"<form action=\"", path)?;
        self.put(b"\"><input name=\"user\" value=\"")?;
        self.put_maybe_user(customer)?;
        self.put(b"\"><input name=\"pass\" value=\"\">")?;
        self.id_fields(ids)?;
        self.put(b"</form>\n")?;
        Ok(())
    }

    /// Adds the form of a new customer.
    pub fn newcomer_form(&mut self, ids: PageIds) -> Result<(), Memory>
        ensures { OnOk result (Adds self.old self.new (λ drawn. block_line (newcomer_form (ids_at drawn ids)))) }
    {
        self.put(
            b"<form action=\"/buy_request\"><input name=\"fn\" value=\"\"><input name=\"ln\" value=\"\">\
              <input name=\"street1\" value=\"\"><input name=\"street2\" value=\"\"><input name=\"city\" value=\"\">\
              <input name=\"state\" value=\"\"><input name=\"zip\" value=\"\"><input name=\"country\" value=\"\">\
              <input name=\"phone\" value=\"\"><input name=\"email\" value=\"\">",
        )?;
        self.id_fields(ids)?;
        self.put(b"</form>\n")?;
        Ok(())
    }

    /// Adds the form in which a customer with these names pays.
    pub fn payment_form(&mut self, first: &[u8], last: &[u8], ids: PageIds) -> Result<(), Memory>
        ensures { OnOk result ((row : CustomerRow) → HasNames row first.now last.now
            → Adds self.old self.new (λ drawn. block_line (payment_form row (ids_at drawn ids)))) }
    {
        self.escaped(
            b"<form action=\"/buy_confirm\"><input name=\"card\" value=\"VISA\">\
              <input name=\"number\" value=\"\"><input name=\"name\" value=\"",
            first,
        )?;
        self.escaped(b" ", last)?;
        self.put(b"\"><input name=\"expiry\" value=\"\">")?;
        self.id_fields(ids)?;
        self.put(b"</form>\n")?;
        Ok(())
    }

    /// Adds the paragraph of the customer who buys, known or new; the discount is in per cent.
    pub fn buyer(
        &mut self,
        customer: Id,
        first: &[u8],
        last: &[u8],
        discount: u32,
    ) -> Result<(), Memory>
        ensures { OnOk result ((drawn : Drawn) → (row : CustomerRow) → IsBuyer row (user_at drawn customer) first.now last.now discount
            → filled drawn self.new ≡ filled drawn self.old ++ block_line (block.Para (buyer_text row))) }
    {
        self.user(b"<p>User ", customer)?;
        self.escaped(b", ", first)?;
        self.escaped(b" ", last)?;
        self.number(b", discount ", u64::from(discount))?;
        self.put(b"</p>\n")?;
        Ok(())
    }
}
