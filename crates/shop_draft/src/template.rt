ghost use Rattle.std.specs.Prelude.{◌≡◌, ◌≤◌, ◌<◌, ◌^◌, ◌+◌, ◌++◌, [], length, false, decimal, IsTrue, IfOk, OnOk, IfSome};
ghost use Rattle.shop_history.specs.declared.acts.Drawn.{Drawn};
ghost use Rattle.shop_text.specs.Texts.{cents_text, escape};
ghost use Rattle.shop_draft.specs.Drawing.{hole_text};
ghost use Rattle.shop_draft.specs.Links.{AddsIds, HasIds, links_with};
ghost use Rattle.shop_draft.specs.Templates as spec;
ghost use Rattle.shop_draft.specs.Templates.{Adds, Says, IsText, filled};

use crate::flat::Flat;
use crate::holes::{HOLE_ROOM, Hole, hole_len, put_hole};
use crate::out::Out;
use crate::tail::{Sign, Tail};
use crate::{ItemLinks, PageIds};
use shop_history::Drawn;
use shop_model::IdsAsked;
use shop_text::{Caption, Memory, Text};
use std::alloc::Global;
use std::marker::Model;

/// The bytes in front of a text, in which its head comes to stand.
pub const HEAD_ROOM: usize = 256;

/// A hole, so many bytes behind the one before it.
#[derive(Clone, Copy)]
pub struct Gap {
    pub len: usize,
    pub hole: Hole,
}

/// The text of a page, with holes for what a settle draws, and a head right before it. It serves one
/// page after another, and keeps its room.
#[derive(Drop)]
pub struct Template {
    /// Room for a head, and the text.
    bytes: Flat,
    /// Where the head starts.
    start: usize,
    gaps: Vec<Gap>,
    /// The bytes of the text before the last hole.
    front: usize,
    /// The ids that its links hand on, or those of a page before.
    tail: Tail,
}

impl Model for Template {
    ghost use Rattle.shop_draft.specs.Templates.{TemplateState, IsLaidOut, state_of};

    ghost Value = { TemplateState };

    ghost view = { λ t. state_of t.bytes t.start t.gaps.items };

    ghost invariant = { λ t. IsLaidOut t.bytes t.start t.gaps.items t.front };
}

impl Template {
    /// No text, with room for so many bytes.
    pub fn with_room(alloc: Global, room: usize) -> Result<Template, Memory>
        ensures { IfOk result (λ template. IsText template []) }
    {
        let mut bytes = Flat::with_room(alloc, room.saturating_add(HEAD_ROOM))?;
        bytes.put(&[0; HEAD_ROOM])?;
        let mut template = Template {
            bytes,
            start: HEAD_ROOM,
            gaps: Vec::new(alloc),
            front: 0,
            tail: Tail::new(),
        };
        template.clear();
        Ok(template)
    }

    /// Drops text and head, and keeps their room.
    pub fn clear(&mut self)
        ensures { IsText self.new [] }
    {
        self.bytes.truncate(HEAD_ROOM);
        self.start = HEAD_ROOM;
        self.gaps.clear();
        self.front = 0;
    }

    /// Adds markup as it stands.
    #[inline(always)]
    pub fn put<const N: usize>(&mut self, markup: &[u8; N]) -> Result<(), Memory>
        ensures { OnOk result (Says self.old self.new markup.now) }
    {
        self.bytes.put_array(markup)?;
        Ok(())
    }

    /// Adds bytes that stand for themselves in a page.
    #[inline(always)]
    pub(crate) fn put_bytes(&mut self, bytes: &[u8]) -> Result<(), Memory>
        ensures { OnOk result (Says self.old self.new bytes.now) }
    {
        self.bytes.put(bytes)?;
        Ok(())
    }

    /// Adds an amount in cents.
    #[inline(always)]
    pub(crate) fn put_cents(&mut self, cents: u64) -> Result<(), Memory>
        ensures { OnOk result (Says self.old self.new (escape (cents_text cents))) }
    {
        self.bytes.put_cents(cents)?;
        Ok(())
    }

    /// Adds the digits of a number.
    #[tactic(auto, using(shop_text::proofs::cited::Plain::plain_decimal))]
    #[inline(always)]
    pub(crate) fn put_number(&mut self, number: u64) -> Result<(), Memory>
        ensures { OnOk result (Says self.old self.new (escape (decimal number))) }
    {
        self.bytes.put_number(number)?;
        Ok(())
    }

    /// Adds bytes as they stand in a page.
    #[inline(always)]
    pub(crate) fn put_escaped(&mut self, bytes: &[u8]) -> Result<(), Memory>
        ensures { OnOk result (Says self.old self.new (escape bytes.now)) }
    {
        self.bytes.put_escaped(bytes)?;
        Ok(())
    }

    /// Adds a text as it stands in a page.
    #[inline(always)]
    pub(crate) fn put_caption(&mut self, caption: &Caption) -> Result<(), Memory>
        ensures { OnOk result (Says self.old self.new (escape caption.now)) }
    {
        self.bytes.put_caption(caption)?;
        Ok(())
    }

    /// Adds ids behind a sign, where they are known; answers whether they are. They are kept for further signs.
    #[inline(always)]
    pub(crate) fn put_known_ids(&mut self, sign: Sign, ids: PageIds) -> Result<bool, Memory>
        requires { HasIds ids }
        ensures added { IfOk result (λ known. IsTrue known → AddsIds self.old self.new sign ids) }
        ensures same { IfOk result (λ known. known ≡ false → self.new ≡ self.old) }
    {
        if !self.tail.keep(ids) {
            return Ok(false);
        }
        self.tail.put_to(&mut self.bytes, sign)?;
        Ok(true)
    }

    /// Adds links that were written before, with these ids.
    pub(crate) fn put_woven(&mut self, links: &ItemLinks, ids: IdsAsked) -> Result<(), Memory>
        ensures { OnOk result (Says self.old self.new (links_with ids links.now)) }
    {
        self.tail.write(ids);
        links.put_to(&mut self.bytes, self.tail.text())?;
        Ok(())
    }

    /// Adds a hole.
    pub(crate) fn put_gap(&mut self, hole: Hole) -> Result<(), Memory>
        ensures { OnOk result (Adds self.old self.new (λ drawn. hole_text drawn hole)) }
    {
        let end = self.bytes.len() - HEAD_ROOM;
        let len = end - self.front;
        self.gaps.push(Gap { len, hole })?;
        self.front = end;
        Ok(())
    }

    /// Whether the text has no holes: it is what it will be.
    pub fn is_whole(&self) -> bool
        ensures { IsTrue result → IsText self.now self.now.text }
    {
        self.gaps.as_slice().is_empty()
    }

    /// The length of the text without what fills its holes.
    fn text_len(&self) -> usize
        ensures { result ≡ length self.now.text }
    {
        self.bytes.len() - HEAD_ROOM
    }

    /// The length of the text, filled.
    pub fn len(&self, drawn: &Drawn) -> usize
        requires { spec.template_room self.now < 2 ^ 64 }
        ensures { result ≡ length (filled drawn.now self.now) }
    {
        let mut len = self.text_len();
        for gap in &self.gaps {
            len += hole_len(drawn, gap.hole);
        }
        len
    }

    /// The most bytes of the text, filled; none where no memory could hold it.
    pub fn room(&self) -> Option<usize>
        ensures { IfSome result (λ room. room ≡ spec.template_room self.now) }
    {
        let holes = self.gaps.len().checked_mul(HOLE_ROOM)?;
        self.text_len().checked_add(holes)
    }

    /// Adds the text, filled; takes no memory.
    pub fn fill(&self, out: &mut Out, drawn: &Drawn)
        requires { spec.template_room self.now ≤ out.old.room }
        ensures { out.new.bytes ≡ out.old.bytes ++ filled drawn.now self.now }
    {
        let (_, text) = self.bytes.bytes().split_at(HEAD_ROOM);
        let mut rest = text;
        for gap in &self.gaps {
            let (front, behind) = rest.split_at(gap.len);
            out.put(front);
            put_hole(out, drawn, gap.hole);
            rest = behind;
        }
        out.put(rest);
    }

    /// Puts a head right before the text, in place of the last one.
    pub fn put_before(&mut self, head: &[u8])
        requires { length head.now ≤ spec.head_room }
        ensures head { self.new.head ≡ head.now }
        ensures text { self.new.text ≡ self.old.text }
        ensures same { (drawn : Drawn) → filled drawn self.new ≡ filled drawn self.old }
    {
        self.start = HEAD_ROOM - head.len();
        self.bytes.write_at(self.start, head);
    }

    /// The head, and the text as it is before its holes are filled.
    pub fn bytes(&self) -> &[u8]
        ensures { result.now ≡ self.now.head ++ self.now.text }
    {
        let (_, bytes) = self.bytes.bytes().split_at(self.start);
        bytes
    }

    /// The head, and the text as it is before its holes are filled; takes no memory.
    pub fn into_text(self) -> Text
        ensures { result ≡ self.head ++ self.text }
    {
        let Template {
            bytes,
            start,
            gaps: _,
            front: _,
            tail: _,
        } = self;
        bytes.into_text(start)
    }
}
