//! What is said of an item that was administered.
ghost use Rattle.std.specs.Prelude.{OnOk};
ghost use Rattle.shop_model.specs.declared.page.Block.TheVariants as block;
ghost use Rattle.shop_model.specs.pages.AdminConfirm.{mended_text};
ghost use Rattle.shop_model.specs.pages.PageText.{block_line};
ghost use Rattle.shop_draft.specs.Drawing.{day_after};
ghost use Rattle.shop_draft.specs.Templates.{Adds};

use crate::{Hole, Template};
use shop_text::Memory;

impl Template {
    /// Adds the paragraph of what an item costs, in cents, and of the day on which it is published: that of
    /// the settle's stamp.
    pub fn mended(&mut self, cost: u64) -> Result<(), Memory>
        ensures { OnOk result (Adds self.old self.new (λ drawn. block_line (block.Para (mended_text cost (day_after drawn.stamp 0))))) }
    {
        self.money(b"<p>Cost ", cost)?;
        self.hole(b", published ", Hole::Day(0))?;
        self.put(b"</p>\n")?;
        Ok(())
    }
}
