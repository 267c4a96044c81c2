//! The customer whose number a request may give, by what was read.
ghost use Rattle.std.specs.Prelude.{◌≡◌, option_copied};
ghost use Rattle.shop_model.specs.pages.Forms.{user_of};
ghost use Rattle.shop_draft.specs.Drawing.{user_text};
ghost use Rattle.shop_browse.specs.Known.{FollowsKnown, IsKnown};

use shop_attempt::ReadOf;
use shop_history::Row;
use shop_model::Customer;

/// What is known of the customer.
pub(crate) enum Known<'a> {
    /// The one with this number is to be read.
    Unread(u32),
    /// It is this one, or no number is given.
    Is(Option<&'a Customer>),
    /// There is no customer with the number.
    Missing,
    /// No shop shows what was read.
    Never,
}

/// What is known after so many rounds.
pub(crate) fn customer_known<'a>(c: Option<u32>, round: u32, reads: &'a [ReadOf]) -> Known<'a>
    requires { FollowsKnown c round reads.now }
    ensures { IsKnown c round reads.now result }
{
    let Some(number) = c else {
        return Known::Is(None);
    };
    if round == 0 {
        return Known::Unread(number);
    }
    match &reads[0].row {
        Row::Absent => Known::Missing,
        Row::Customer(customer) => Known::Is(Some(customer)),
        _ => Known::Never,
    }
}

/// The id by which a form says the user name of a customer.
pub(crate) fn id_of(customer: Option<&Customer>) -> Option<u32>
    ensures { user_of (option_copied customer.entry) ≡ user_text result }
{
    match customer {
        None => None,
        Some(customer) => Some(customer.id),
    }
}
