ghost use Rattle.std.specs.Prelude.{OnOk};
ghost use Rattle.shop_model.specs.asked.Refusals.{page_of};
ghost use Rattle.shop_draft.specs.Pages.{Shows};

use crate::Template;
use shop_model::Refusal;
use shop_text::Memory;

/// A page before its settle: a status of HTTP, and its text.
#[derive(Drop)]
pub struct Draft {
    pub status: u16,
    pub page: Template,
}

/// Writes the page of a refusal: the reason phrase as its title, and why.
#[tactic(auto, unfolding(shop_model::specs::pages::PageText::page_text, shop_model::specs::pages::PageText::block_text, shop_model::specs::asked::Refusals::refusal_page))]
pub fn refusal(draft: &mut Draft, refusal: Refusal) -> Result<(), Memory>
    ensures { OnOk result (Shows draft.new (λ drawn. page_of refusal)) }
{
    draft.status = refusal.status();
    let page = &mut draft.page;
    page.clear();
    page.escaped(b"<html><head><title>", refusal.phrase())?;
    page.escaped(b"</title></head><body>\n<p>", refusal.text())?;
    page.put(b"</p>\n</body></html>\n")?;
    Ok(())
}
