ghost use Rattle.std.specs.Prelude.{◌≡◌, OnOk, Some, IsSome};
ghost use Rattle.shop_model.specs.asked.Refusals.{page_of};
ghost use Rattle.shop_model.specs.declared.page.Page.{Page};
ghost use Rattle.shop_cache.specs.Keys.{key_asked};
ghost use Rattle.shop_browse.specs.Lists.{page_by};
ghost use Rattle.shop_pages.specs.Replies.{reply as reply_bytes};
ghost use Rattle.shop_pages.specs.ReplyStates.{bytes_of};

use shop_browse::write_list;
use shop_cache::ListLines;
use shop_draft::refusal as write_refusal;
use shop_history::{Drawn, Ids};
use shop_model::{Refusal, Request};
use shop_pages::{Form, Reply};
use shop_text::Memory;

/// What a settle draws that makes no rows.
const NOTHING: Drawn = Drawn {
    front: 0,
    stamp: 0,
    ids: Ids {
        cart: None,
        customer: None,
        address: None,
        order: None,
    },
};

/// Makes the reply around the page of a refusal.
pub(crate) fn refusal_reply(reply: &mut Reply, refusal: Refusal, form: Form) -> Result<(), Memory>
    ensures { OnOk result (bytes_of reply.new ≡ reply_bytes (page_of refusal) form) }
{
    write_refusal(reply.draft(), refusal)?;
    reply.reserve()?;
    reply.finish(&NOTHING, form);
    Ok(())
}

/// Makes the reply around the page of the list that is asked for, by its lines.
pub(crate) fn list_reply(
    reply: &mut Reply,
    request: &Request,
    lines: &ListLines,
    form: Form,
) -> Result<(), Memory>
    requires { IsSome (key_asked request.now) }
    ensures { OnOk result ((page : Page) → page_by request.now lines.now ≡ Some page → bytes_of reply.new ≡ reply_bytes page form) }
{
    write_list(reply.draft(), request, lines)?;
    reply.reserve()?;
    reply.finish(&NOTHING, form);
    Ok(())
}
