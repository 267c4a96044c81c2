/// How the requests of browsers went; each count goes up to `u64::MAX`.
#[derive(Clone, Copy, Debug, PartialEq, Eq)]
pub struct Tally {
    pub requests: u64,
    /// The replies with status 200.
    pub pages: u64,
    /// The replies with another status.
    pub refused: u64,
}

impl Tally {
    ghost use Rattle.std.specs.Prelude.{◌≡◌};
    ghost use Rattle.shop_drive.specs.Tallies.{counted, no_requests};

    pub(crate) fn new() -> Tally
        ensures { result ≡ no_requests }
    {
        Tally {
            requests: 0,
            pages: 0,
            refused: 0,
        }
    }

    /// Counts a request, whose reply has status 200 or not.
    pub(crate) fn count(&mut self, is_page: bool)
        ensures { self.new ≡ counted self.old is_page }
    {
        self.requests = self.requests.saturating_add(1);
        if is_page {
            self.pages = self.pages.saturating_add(1);
        } else {
            self.refused = self.refused.saturating_add(1);
        }
    }
}
