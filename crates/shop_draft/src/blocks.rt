//! Blocks, and what stands around those of a page.
ghost use Rattle.std.specs.Prelude.{◌≡◌, OnOk};
ghost use Rattle.shop_text.specs.Texts.{escape};
ghost use Rattle.shop_model.specs.pages.PageText.{block_line};
ghost use Rattle.shop_model.specs.declared.page.Block.TheVariants as block;
ghost use Rattle.shop_draft.specs.Pages.{page_front, page_end};
ghost use Rattle.shop_draft.specs.Templates.{IsText, Says};

use crate::Template;
use shop_text::{Caption, Memory};

impl Template {
    /// Drops all, and begins a page; its title is plain.
    #[inline(always)]
    pub fn begin(&mut self, title: &[u8]) -> Result<(), Memory>
        requires plain { escape title.now ≡ title.now }
        ensures { OnOk result (IsText self.new (page_front title.now)) }
    {
        self.clear();
        self.put(b"<html><head><title>")?;
        self.put_bytes(title)?;
        self.put(b"</title></head><body>\n")?;
        Ok(())
    }

    /// Ends a page.
    #[inline(always)]
    pub fn end(&mut self) -> Result<(), Memory>
        ensures { OnOk result (Says self.old self.new page_end) }
    {
        self.put(b"</body></html>\n")?;
        Ok(())
    }

    /// Adds a heading.
    #[tactic(auto, unfolding(shop_model::specs::pages::PageText::block_text))]
    #[inline(always)]
    pub fn heading(&mut self, text: &Caption) -> Result<(), Memory>
        ensures { OnOk result (Says self.old self.new (block_line (block.Heading text.now))) }
    {
        self.text(b"<h1>", text)?;
        self.put(b"</h1>\n")?;
        Ok(())
    }

    /// Adds a paragraph.
    #[tactic(auto, unfolding(shop_model::specs::pages::PageText::block_text))]
    #[inline(always)]
    pub fn para(&mut self, text: &Caption) -> Result<(), Memory>
        ensures { OnOk result (Says self.old self.new (block_line (block.Para text.now))) }
    {
        self.text(b"<p>", text)?;
        self.put(b"</p>\n")?;
        Ok(())
    }

    /// Adds a picture.
    #[tactic(auto, unfolding(shop_model::specs::pages::PageText::block_text))]
    #[inline(always)]
    pub fn picture(&mut self, target: &Caption, label: &Caption) -> Result<(), Memory>
        ensures { OnOk result (Says self.old self.new (block_line (block.Picture target.now label.now))) }
    {
        self.text(b"<img src=\"", target)?;
        self.text(b"\" alt=\"", label)?;
        self.put(b"\">\n")?;
        Ok(())
    }
}
