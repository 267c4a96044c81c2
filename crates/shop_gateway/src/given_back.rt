ghost use Rattle.std.specs.Prelude.{◌≡◌};

/// A gateway that is given back, and what came of asking it.
pub struct GivenBack<'a, G, R> {
    pub gateway: &'a mut G,
    pub outcome: R,
}

impl<'a, G, R> GivenBack<'a, G, R> {
    pub fn into_outcome(self) -> R
        ensures outcome { result ≡ self.entry.outcome }
        ensures gateway { self.exit.0.now ≡ self.entry.gateway.now }
    {
        let GivenBack {
            gateway: _,
            outcome,
        } = self;
        outcome
    }
}
