//! Numbers that rise, each once.
ghost use Rattle.std.specs.Prelude.{◌≡◌, OnOk, nat_lt};
ghost use Rattle.std.specs.List.{prefix_len};
ghost use Rattle.shop_model.specs.lists.Related as spec;

use shop_text::Memory;

/// How many numbers at the front are below this one.
fn count_below(numbers: &[u32], number: u32) -> usize
    ensures { result ≡ prefix_len (λ n. nat_lt n number) numbers.now }
{
    numbers.iter().take_while(|n| **n < number).count()
}

/// Puts a number at its place among rising ones, unless it is there.
pub(crate) fn put_once(numbers: &mut Vec<u32>, number: u32) -> Result<(), Memory>
    ensures { OnOk result (numbers.new.items ≡ spec.put_once number numbers.old.items) }
{
    let place = count_below(numbers, number);
    if place < numbers.len() && numbers[place] == number {
        return Ok(());
    }
    numbers.insert(place, number)?;
    Ok(())
}
