ghost use Rattle.std.specs.Prelude.{◌≡◌, option_copied};
ghost use Rattle.shop_model.specs.rows.Lookups as spec;

/// The row with this id, where ids run from 1.
pub fn row_numbered<T>(rows: &[T], id: u32) -> Option<&T>
    ensures { option_copied result ≡ spec.row_numbered rows.now id }
{
    if id == 0 {
        None
    } else {
        rows.get(id as usize - 1)
    }
}
