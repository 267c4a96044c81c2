//! Tables in which two addresses say the same.
ghost use Rattle.std.specs.Prelude.{◌≡◌, IfOk};
ghost use Rattle.shop_answers.specs.Desks.{IsDesk, twinned};

use shop_model::{Address, Tables};
use shop_text::{Listed, Memory, Shared};
use std::alloc::Global;

/// The addresses, of which the second one says what the first one does.
#[tactic(auto, using(crate::proofs::Desks::twinned_few, crate::proofs::Desks::twinned_set))]
fn twins(
    alloc: Global,
    addresses: Listed<Shared<Address>>,
) -> Result<Listed<Shared<Address>>, Memory>
    ensures { IfOk result (λ made. made ≡ twinned addresses) }
{
    let mut addresses = addresses.into_vec();
    if addresses.len() < 2 {
        return Ok(Listed::from_vec(addresses));
    }
    let text = addresses[0].get().text.copy(alloc)?;
    let id = addresses[1].get().id;
    addresses[1] = Shared::new(alloc, Address { id, text })?;
    Ok(Listed::from_vec(addresses))
}

/// The tables where address 2 says what address 1 does.
#[tactic(auto, using(crate::proofs::Desks::twins_desk))]
pub fn with_twins(alloc: Global, tables: Tables) -> Result<Tables, Memory>
    requires { IsDesk tables }
    ensures { IfOk result IsDesk }
{
    let addresses = twins(alloc, tables.addresses)?;
    Ok(Tables {
        addresses,
        ..tables
    })
}
