use shop_model::Parameter;
use shop_text::Memory;

/// Why pairs are no request.
#[derive(Clone, Copy)]
pub(crate) enum Fault {
    /// This parameter is missing, or not in its form.
    Parameter(Parameter),
    Memory,
}

impl From<Memory> for Fault {
    ghost use Rattle.std.specs.Prelude.{◌≡◌};
    ghost use Rattle.shop_http.specs.declared.requests.fault.Fault.{Fault};

    ghost from_gives = { λ _ fault. fault ≡ Fault.Memory };

    fn from(_: Memory) -> Self {
        Fault::Memory
    }
}
