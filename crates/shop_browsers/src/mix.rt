ghost use Rattle.std.specs.Prelude.{◌≡◌, map, sum};
ghost use Rattle.shop_browsers.specs.Mixes as spec;

use shop_model::Interaction;

/// How often a browser asks for each interaction.
#[derive(Clone, Copy, Debug, PartialEq, Eq)]
pub enum Mix {
    Browsing,
    Shopping,
    Ordering,
}

impl Mix {
    /// The interactions with their weights, in hundredths of a per cent.
    #[tactic(auto, unfolding(crate::specs::Mixes::weights_of, crate::specs::Mixes::interactions))]
    fn shares(&self) -> [(Interaction, u32); 14]
        ensures shares { result ≡ spec.shares_of self.now }
        ensures whole { sum (map (λ share. share.1) result) ≡ 10_000 }
    {
        match self {
            Mix::Browsing => [
                (Interaction::Home, 2900),
                (Interaction::NewProducts, 1100),
                (Interaction::BestSellers, 1100),
                (Interaction::ProductDetail, 2100),
                (Interaction::SearchRequest, 1200),
                (Interaction::SearchResults, 1100),
                (Interaction::ShoppingCart, 200),
                (Interaction::CustomerRegistration, 82),
                (Interaction::BuyRequest, 75),
                (Interaction::BuyConfirm, 69),
                (Interaction::OrderInquiry, 30),
                (Interaction::OrderDisplay, 25),
                (Interaction::AdminRequest, 10),
                (Interaction::AdminConfirm, 9),
            ],
            Mix::Shopping => [
                (Interaction::Home, 1600),
                (Interaction::NewProducts, 500),
                (Interaction::BestSellers, 500),
                (Interaction::ProductDetail, 1700),
                (Interaction::SearchRequest, 2000),
                (Interaction::SearchResults, 1700),
                (Interaction::ShoppingCart, 1160),
                (Interaction::CustomerRegistration, 300),
                (Interaction::BuyRequest, 260),
                (Interaction::BuyConfirm, 120),
                (Interaction::OrderInquiry, 75),
                (Interaction::OrderDisplay, 66),
                (Interaction::AdminRequest, 10),
                (Interaction::AdminConfirm, 9),
            ],
            Mix::Ordering => [
                (Interaction::Home, 912),
                (Interaction::NewProducts, 46),
                (Interaction::BestSellers, 46),
                (Interaction::ProductDetail, 1235),
                (Interaction::SearchRequest, 1453),
                (Interaction::SearchResults, 1308),
                (Interaction::ShoppingCart, 1353),
                (Interaction::CustomerRegistration, 1286),
                (Interaction::BuyRequest, 1273),
                (Interaction::BuyConfirm, 1018),
                (Interaction::OrderInquiry, 25),
                (Interaction::OrderDisplay, 22),
                (Interaction::AdminRequest, 12),
                (Interaction::AdminConfirm, 11),
            ],
        }
    }

    /// The interaction that a drawn word picks.
    pub(crate) fn picked(&self, word: u32) -> Interaction
        ensures { result ≡ spec.picked self.now word }
    {
        let shares = self.shares();
        share_at(&shares, word % 10_000)
    }
}

/// The interaction in whose share a number falls, where the shares lie one behind another.
fn share_at(shares: &[(Interaction, u32)], number: u32) -> Interaction
    ensures { result ≡ spec.share_at shares.now number }
{
    let mut left = number;
    let mut rest = shares;
    while let [share, after @ ..] = rest {
        if left < share.1 {
            return share.0;
        }
        left -= share.1;
        rest = after;
    }
    Interaction::Home
}
