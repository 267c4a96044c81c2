//! Lists of what each may want memory.
use shop_text::{Listed, Memory};
use std::alloc::Global;

/// The list of what was made, unless memory ran out for some of it.
pub fn list<T: Drop, const N: usize>(
    alloc: Global,
    made: [Result<T, Memory>; N],
) -> Result<Listed<T>, Memory> {
    let mut items = Listed::new(alloc);
    for item in Vec::from_array(alloc, made)? {
        items.push(item?)?;
    }
    Ok(items)
}
