//! Markup, and behind it a value.
ghost use Rattle.std.specs.Prelude.{◌≡◌, ◌≤◌, ◌++◌, OnOk, decimal};
ghost use Rattle.shop_text.specs.Texts.{cents_text, day_text, digsyl, escape};
ghost use Rattle.shop_text.specs.Syllables.{spelled};
ghost use Rattle.shop_draft.specs.Drawing.{id_at, user_at, hole_text};
ghost use Rattle.shop_draft.specs.Templates.{Adds, Says};

use crate::{Hole, Id, Template};
use itoa::Buffer;
use shop_text::{Caption, Memory, day_bytes, syllable};

impl Template {
    /// Markup as it stands, and behind it a text.
    #[inline(always)]
    pub fn text<const N: usize>(&mut self, front: &[u8; N], text: &Caption) -> Result<(), Memory>
        ensures { OnOk result (Says self.old self.new (front.now ++ escape text.now)) }
    {
        self.put(front)?;
        self.put_caption(text)?;
        Ok(())
    }

    /// Markup as it stands, and behind it bytes.
    #[inline(always)]
    pub fn escaped<const N: usize>(&mut self, front: &[u8; N], bytes: &[u8]) -> Result<(), Memory>
        ensures { OnOk result (Says self.old self.new (front.now ++ escape bytes.now)) }
    {
        self.put(front)?;
        self.put_escaped(bytes)?;
        Ok(())
    }

    /// Markup as it stands, and behind it plain bytes.
    #[inline(always)]
    pub fn plain<const N: usize>(&mut self, front: &[u8; N], bytes: &[u8]) -> Result<(), Memory>
        requires { escape bytes.now ≡ bytes.now }
        ensures { OnOk result (Says self.old self.new (front.now ++ escape bytes.now)) }
    {
        self.put(front)?;
        self.put_bytes(bytes)?;
        Ok(())
    }

    /// Markup as it stands, and behind it a number.
    #[inline(always)]
    pub fn number<const N: usize>(&mut self, front: &[u8; N], number: u64) -> Result<(), Memory>
        ensures { OnOk result (Says self.old self.new (front.now ++ escape (decimal number))) }
    {
        self.put(front)?;
        self.put_number(number)?;
        Ok(())
    }

    /// Markup as it stands, and behind it an amount in cents.
    #[inline(always)]
    pub fn money<const N: usize>(&mut self, front: &[u8; N], cents: u64) -> Result<(), Memory>
        ensures { OnOk result (Says self.old self.new (front.now ++ escape (cents_text cents))) }
    {
        self.put(front)?;
        self.put_cents(cents)?;
        Ok(())
    }

    /// Markup as it stands, and behind it a day counted from 1970-01-01, up to 9999-12-31.
    #[inline(always)]
    pub fn day<const N: usize>(&mut self, front: &[u8; N], day: u32) -> Result<(), Memory>
        requires { day ≤ 2_932_896 }
        ensures { OnOk result (Says self.old self.new (front.now ++ escape (day_text day))) }
    {
        self.put(front)?;
        self.put(&day_bytes(day))?;
        Ok(())
    }

    /// Markup as it stands, and behind it what a settle draws.
    #[inline(always)]
    pub fn hole<const N: usize>(&mut self, front: &[u8; N], hole: Hole) -> Result<(), Memory>
        ensures { OnOk result (Adds self.old self.new (λ drawn. front.now ++ hole_text drawn hole)) }
    {
        self.put(front)?;
        self.put_gap(hole)?;
        Ok(())
    }

    /// Adds the digits of an id, or a hole for them.
    #[tactic(auto, unfolding(crate::specs::Drawing::hole_text))]
    #[inline(always)]
    fn put_id(&mut self, id: Id) -> Result<(), Memory>
        ensures { OnOk result (Adds self.old self.new (λ drawn. escape (decimal (id_at drawn id)))) }
    {
        match id {
            Id::Known(id) => self.put_number(u64::from(id))?,
            Id::NewCart => self.put_gap(Hole::CartId)?,
            Id::NewCustomer => self.put_gap(Hole::CustomerId)?,
            Id::NewOrder => self.put_gap(Hole::OrderId)?,
        }
        Ok(())
    }

    /// Markup as it stands, and behind it an id, or a hole for it.
    #[inline(always)]
    pub fn id<const N: usize>(&mut self, front: &[u8; N], id: Id) -> Result<(), Memory>
        ensures { OnOk result (Adds self.old self.new (λ drawn. front.now ++ escape (decimal (id_at drawn id)))) }
    {
        self.put(front)?;
        self.put_id(id)?;
        Ok(())
    }

    /// Adds the syllable of each digit.
    fn put_spelled(&mut self, digits: &[u8]) -> Result<(), Memory>
        ensures { OnOk result (Says self.old self.new (spelled digits.now)) }
    {
        for code in digits {
            self.put_bytes(syllable(code.saturating_sub(b'0')))?;
        }
        Ok(())
    }

    /// Adds the user name of the customer with an id.
    #[inline(never)]
    pub(crate) fn put_known_user(&mut self, customer: u32) -> Result<(), Memory>
        ensures { OnOk result (Says self.old self.new (escape (digsyl customer))) }
    {
        let mut buffer = Buffer::new();
        self.put_spelled(buffer.format(customer).as_bytes())?;
        Ok(())
    }

    /// Adds the user name of a customer, or a hole for it.
    #[tactic(auto, unfolding(crate::specs::Drawing::hole_text))]
    fn put_user(&mut self, customer: Id) -> Result<(), Memory>
        ensures { OnOk result (Adds self.old self.new (λ drawn. escape (user_at drawn customer))) }
    {
        match customer {
            Id::Known(customer) => self.put_known_user(customer)?,
            Id::NewCustomer => self.put_gap(Hole::User)?,
            Id::NewCart | Id::NewOrder => {}
        }
        Ok(())
    }

    /// Markup as it stands, and behind it the user name of a customer, or a hole for it.
    #[inline(always)]
    pub fn user<const N: usize>(&mut self, front: &[u8; N], customer: Id) -> Result<(), Memory>
        ensures { OnOk result (Adds self.old self.new (λ drawn. front.now ++ escape (user_at drawn customer))) }
    {
        self.put(front)?;
        self.put_user(customer)?;
        Ok(())
    }
}
