ghost use Rattle.std.specs.Prelude.{◌≡◌, ◌↔◌, length, IsTrue};

/// Whether the bytes have the length of a constant, and its byte in the middle: most others do not.
#[inline(always)]
fn may_be(bytes: &[u8], constant: &[u8]) -> bool
    ensures same { bytes.now ≡ constant.now → IsTrue result }
    ensures len { IsTrue result → length bytes.now ≡ length constant.now }
{
    let middle = constant.len() / 2;
    bytes.len() == constant.len() && bytes.get(middle) == constant.get(middle)
}

/// Whether the bytes are those of a constant. Where the constant is known, these are a test or two.
#[inline(always)]
pub(crate) fn is_same(bytes: &[u8], constant: &[u8]) -> bool
    ensures { IsTrue result ↔ (bytes.now ≡ constant.now) }
{
    may_be(bytes, constant) && bytes.starts_with(constant)
}
