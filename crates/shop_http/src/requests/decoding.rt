ghost use Rattle.std.specs.Prelude.{◌≡◌, IfOk, IsUtf8};
ghost use Rattle.std.specs.Cow.{cow_slice_items};
ghost use Rattle.std.specs.List.{list_all};
ghost use Rattle.shop_http.specs.Forms as spec;

use form_urlencoded::decode;
use shop_text::Memory;
use std::alloc::Global;
use std::borrow::{CowSlice, CowStr};

/// What an encoded name or value stands for. A plain one is borrowed, and takes no memory.
#[inline(always)]
pub(crate) fn decoded(alloc: Global, encoded: &[u8]) -> Result<CowSlice<'_, u8>, Memory>
    ensures value { IfOk result (λ text. cow_slice_items text ≡ spec.decoded_text encoded.now) }
    ensures utf8 { IfOk result (λ text. IsUtf8 (cow_slice_items text)) }
{
    if is_plain(encoded) {
        return Ok(CowSlice::Borrowed(encoded));
    }
    decoded_anew(alloc, encoded)
}

#[cold]
#[inline(never)]
fn decoded_anew(alloc: Global, encoded: &[u8]) -> Result<CowSlice<'_, u8>, Memory>
    ensures value { IfOk result (λ text. cow_slice_items text ≡ spec.decoded_text encoded.now) }
    ensures utf8 { IfOk result (λ text. IsUtf8 (cow_slice_items text)) }
{
    match decode(alloc, encoded)? {
        CowStr::Borrowed(text) => Ok(CowSlice::Borrowed(text.as_bytes())),
        CowStr::Owned(text) => Ok(CowSlice::Owned(text.into_bytes())),
    }
}

/// Whether decoding leaves the bytes as they are, by each alone.
fn is_plain(bytes: &[u8]) -> bool
    ensures { result ≡ list_all spec.is_plain bytes.now }
{
    bytes.iter().all(|&byte| matches!(byte, b','..=127) || (byte < b'+' && byte != b'%'))
}
