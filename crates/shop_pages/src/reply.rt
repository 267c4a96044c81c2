ghost use Rattle.std.specs.Prelude.{◌≡◌, ◌≤◌, ◌+◌, ◌++◌, IfSome};
ghost use Rattle.shop_draft.specs.Templates.{filled, template_room};
ghost use Rattle.shop_pages.specs.Replies.{body_of};
ghost use Rattle.shop_pages.specs.ReplyStates.{head_room, sent_by};

use crate::head::{HEAD_ROOM, put_head};
use shop_draft::{Draft, HEAD_ROOM as ROOM_BEFORE, Out, Template};
use shop_history::Drawn;
use shop_text::{Memory, Text};
use std::alloc::Global;
use std::marker::Model;

/// The bytes for which a buffer has room at first.
const FIRST_ROOM: usize = 8_192;

/// What a reply says of its connection, and whether it has its page.
#[derive(Clone, Copy)]
pub struct Form {
    /// The connection ends after the reply.
    pub close: bool,
    /// The page is left out, and its length told; for a message whose method is HEAD.
    pub bodiless: bool,
}

/// The most bytes of the reply with this page; none where no memory could hold them.
fn reply_room(page: &Template) -> Option<usize>
    ensures { IfSome result (λ room. room ≡ head_room + template_room page.now) }
{
    page.room()?.checked_add(HEAD_ROOM)
}

/// Joins a head with its page, unless this is left out, and tells where they stand then: in the page's
/// own room where it waits for nothing, so that it is not copied, and else in the buffer, behind the
/// head; takes no memory.
fn join(page: &mut Template, out: &mut Out, drawn: &Drawn, form: Form) -> bool
    requires { template_room page.old ≤ out.old.room }
    ensures { sent_by result page.new out.new ≡ out.old.bytes ++ body_of (filled drawn.now page.old) form }
{
    if form.bodiless {
        return false;
    }
    if page.is_whole() && out.bytes().len() <= ROOM_BEFORE {
        page.put_before(out.bytes());
        return true;
    }
    page.fill(out, drawn);
    false
}

/// The draft of a page, and room for the whole reply with it, which is made before its settle; it is
/// then finished without taking memory. It serves one reply after another, and keeps its room.
#[derive(Drop)]
pub struct Reply {
    draft: Draft,
    /// The reply stands in the draft's room, and else in the buffer.
    whole: bool,
    out: Out,
}

impl Model for Reply {
    ghost use Rattle.shop_pages.specs.ReplyStates.{ReplyState};

    ghost Value = { ReplyState };

    ghost view = { λ r. record { draft = r.draft; whole = r.whole; out = r.out } };
}

impl Reply {
    ghost use Rattle.std.specs.Prelude.{◌≡◌, [], IfOk, OnOk};
    ghost use Rattle.std.specs.Borrow.{sem};
    ghost use Rattle.shop_model.specs.declared.page.Page.{Page};
    ghost use Rattle.shop_draft.specs.Pages.{IsPage};
    ghost use Rattle.shop_pages.specs.Lending.{LendsDraft};
    ghost use Rattle.shop_pages.specs.Replies.{reply as reply_bytes};
    ghost use Rattle.shop_pages.specs.ReplyStates.{IsReserved, bytes_of};

    /// A buffer with no reply.
    pub fn new(alloc: Global) -> Result<Reply, Memory>
        ensures { IfOk result (λ reply. bytes_of reply ≡ []) }
    {
        Ok(Reply {
            draft: Draft {
                status: 0,
                page: Template::with_room(alloc, FIRST_ROOM)?,
            },
            whole: false,
            out: Out::with_capacity(alloc, FIRST_ROOM)?,
        })
    }

    /// The draft of the next reply, to write its page into.
    pub fn draft(&mut self) -> &mut Draft
        ensures* lends { sem 𝓛 (LendsDraft self.entry result) }
    {
        &mut self.draft
    }

    /// Drops the last reply, and makes room for the one to the draft.
    pub fn reserve(&mut self) -> Result<(), Memory>
        ensures empty { bytes_of self.new ≡ [] }
        ensures draft { self.new.draft ≡ self.old.draft }
        ensures reserved { OnOk result (IsReserved self.new) }
    {
        self.whole = false;
        self.out.clear();
        let Some(room) = reply_room(&self.draft.page) else {
            return Err(Memory);
        };
        self.out.reserve(room)?;
        Ok(())
    }

    /// Makes the reply of the draft, with what its settle drew; takes no memory.
    pub fn finish(&mut self, drawn: &Drawn, form: Form)
        requires { IsReserved self.old }
        ensures { (page : Page) → IsPage self.old.draft drawn.now page → bytes_of self.new ≡ reply_bytes page form }
    {
        self.out.clear();
        let len = self.draft.page.len(drawn);
        put_head(&mut self.out, self.draft.status, len as u64, form);
        let whole = join(&mut self.draft.page, &mut self.out, drawn, form);
        self.whole = whole;
    }

    /// The reply that was finished last; none after a reserve.
    pub fn bytes(&self) -> &[u8]
        ensures { result.now ≡ bytes_of self.now }
    {
        if self.whole {
            self.draft.page.bytes()
        } else {
            self.out.bytes()
        }
    }

    /// The reply; takes no memory.
    pub fn into_text(self) -> Text
        ensures { result ≡ bytes_of self }
    {
        let Reply { draft, whole, out } = self;
        let Draft { status: _, page } = draft;
        if whole {
            page.into_text()
        } else {
            out.into_text()
        }
    }
}
