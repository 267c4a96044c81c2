use shop_text::Memory;

/// Why an entry is not added to a log.
#[derive(Debug, Drop)]
pub(crate) enum Stop {
    /// It may not follow the entries before it, or the log is full.
    Illegal,
    Memory,
}

impl From<Memory> for Stop {
    ghost use Rattle.std.specs.Prelude.{◌≡◌};
    ghost use Rattle.shop_replay.specs.declared.stops.Stop.{Stop};

    ghost from_gives = { λ _ stop. stop ≡ Stop.Memory };

    fn from(_: Memory) -> Self {
        Stop::Memory
    }
}
