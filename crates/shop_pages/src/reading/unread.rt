use shop_text::Memory;

/// Why bytes were not read as a part of a page.
#[derive(Clone, Copy)]
pub(crate) enum Unread {
    NotAPage,
    Memory,
}

impl From<Memory> for Unread {
    ghost use Rattle.std.specs.Prelude.{◌≡◌};
    ghost use Rattle.shop_pages.specs.declared.reading.unread.Unread.{Unread};

    ghost from_gives = { λ _ unread. unread ≡ Unread.Memory };

    fn from(_: Memory) -> Self {
        Unread::Memory
    }
}
