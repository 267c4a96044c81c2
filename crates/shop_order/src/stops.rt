//! Where a request to buy a cart stops, by what was read of it.
ghost use Rattle.std.specs.Prelude.{IfOk, IfErr};
ghost use Rattle.shop_model.specs.trade.Buyers.{check_bought};
ghost use Rattle.shop_history.specs.declared.keys.Row.TheVariants as row_kinds;
ghost use Rattle.shop_order.specs.ShoppingCart.{IsFitRow};
ghost use Rattle.shop_order.specs.Stops as spec;

use shop_browse::Next;
use shop_draft::{Draft, refusal as write_refusal};
use shop_history::Row;
use shop_model::Refusal;
use shop_text::Memory;

/// Why a request changes nothing.
#[derive(Clone, Copy)]
pub(crate) enum Stop {
    Refused(Refusal),
    /// No shop shows what was read.
    Never,
}

/// The lines of the cart in a row.
pub(crate) fn lines_in(row: &Row) -> Result<&[(u32, u32)], Stop>
    requires { IsFitRow row.now }
    ensures ok { IfOk result (λ lines. spec.AreBought row.now lines.now) }
    ensures err { IfErr result (spec.StopsBy row_kinds.Cart check_bought row.now) }
{
    match row {
        Row::Absent => Err(Stop::Refused(Refusal::NoCart)),
        Row::Cart(cart) => {
            let lines = cart.lines.get().as_slice();
            if lines.is_empty() {
                return Err(Stop::Refused(Refusal::EmptyCart));
            }
            Ok(lines)
        }
        _ => Err(Stop::Never),
    }
}

/// What is done where a request stops.
pub(crate) fn stopped(draft: &mut Draft, stop: Stop) -> Result<Next, Memory>
    ensures { IfOk result (spec.IsStopped stop draft.new) }
{
    match stop {
        Stop::Refused(refusal) => {
            write_refusal(draft, refusal)?;
            Ok(Next::Show)
        }
        Stop::Never => Ok(Next::Never),
    }
}
