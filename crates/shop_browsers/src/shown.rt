//! What a browser takes from a page.
ghost use Rattle.std.specs.Prelude.{◌≡◌, ◌==◌, ◌∷◌, ◌<◌, ◌≤◌, [], ℕ, List, length, IfSome, MatchOption, Some, IsTrue, codes};
ghost use Rattle.std.specs.List.{before_first, after_first};
ghost use Rattle.std.specs.Option.{option_map};
ghost use Rattle.shop_text.specs.Escape.{escape};
ghost use Rattle.shop_model.specs.declared.page.Page.{Page};
ghost use Rattle.shop_browsers.specs.Scanned as scanned;
ghost use Rattle.shop_browsers.specs.Shown as spec;

use memchr::memchr2;
use memchr::memmem::{Finder, find};
use shop_model::IdsAsked;
use shop_text::unescaped;

/// The opening of a link.
const LINK: &[u8] = b"<a href=\"";

/// The bytes that each reply has in front of its page's blocks, whatever its numbers, its phrase and the page's title.
const REPLY_FRONT: usize = 113;

/// The first customer and the first cart that the links of the page that is shown name.
pub(crate) fn ids_shown(shown: &[u8]) -> IdsAsked
    ensures { (p : Page) → spec.Shows shown.now p → result ≡ spec.ids_in p }
{
    let links = Finder::new(LINK);
    let mut ids = IdsAsked {
        c: None,
        cart: None,
    };
    let mut rest = behind_front(shown);
    while let Some(after) = behind_link(&links, rest) {
        let looked = ids.c.is_some();
        ids = with_target(ids, after);
        if names_no_more(ids, after, looked) {
            return ids;
        }
        rest = after;
    }
    ids
}

/// What is left of a reply behind bytes in front that open no link; a page's text is left whole.
fn behind_front(shown: &[u8]) -> &[u8]
    ensures { (p : Page) → spec.Shows shown.now p → scanned.links_in result.now ≡ scanned.links_in shown.now }
{
    if shown.len() >= REPLY_FRONT && shown[0] == b'H' {
        &shown[REPLY_FRONT..]
    } else {
        shown
    }
}

/// Whether the links that are left are known to name nothing that these ids lack. A cart is looked for once, where the
/// customer has come.
fn names_no_more(ids: IdsAsked, left: &[u8], looked: bool) -> bool
    ensures { IsTrue result → scanned.NamesNoMore ids left.now }
{
    match (ids.c, ids.cart) {
        (Some(_), Some(_)) => true,
        (Some(_), None) => !looked && names_no_cart(left),
        (None, _) => false,
    }
}

/// Whether no link can name a cart, since what begins such a pair stands nowhere.
fn names_no_cart(bytes: &[u8]) -> bool
    ensures { IsTrue result → scanned.NamesNoCart bytes.now }
{
    find(bytes, b"cart=").is_none()
}

/// What stands behind the next opening of a link.
fn behind_link<'a>(links: &Finder, bytes: &'a [u8]) -> Option<&'a [u8]>
    requires { links.now ≡ codes "<a href=\"" }
    ensures links { MatchOption result (scanned.links_in bytes.now ≡ []) (λ after. scanned.links_in bytes.now ≡ before_first (λ b. b == 34) after.now ∷ scanned.links_in after.now) }
    ensures shorter { IfSome result (λ after. length after.now < length bytes.now) }
{
    match links.find(bytes) {
        Some(at) => Some(&bytes[at + LINK.len()..]),
        None => None,
    }
}

/// The ids, and those that the target in front names where they lack. A target ends at the next quote.
fn with_target(ids: IdsAsked, text: &[u8]) -> IdsAsked
    ensures { (t : List ℕ) → before_first (λ b. b == 34) text.now ≡ escape t → result ≡ scanned.with_pairs ids (spec.pairs_in t) }
{
    let mut ids = ids;
    let mut rest = query_in(text);
    loop {
        let (taken, left) = with_pair(ids, rest);
        ids = taken;
        let Some(after) = next_pair(left) else {
            return ids;
        };
        rest = after;
    }
}

/// What stands behind the first `?` of the target in front. Nothing where it has none.
fn query_in(text: &[u8]) -> &[u8]
    ensures { before_first (λ b. b == 34) result.now ≡ after_first (λ b. b == 63) (before_first (λ b. b == 34) text.now) }
{
    match memchr2(b'?', b'"', text) {
        Some(at) => {
            if text[at] == b'?' {
                &text[at + 1..]
            } else {
                &[]
            }
        }
        None => &[],
    }
}

/// The ids, and that of the pair in front where it lacks; and what is left behind the bytes of the pair that were read.
fn with_pair(ids: IdsAsked, text: &[u8]) -> (IdsAsked, &[u8])
    ensures taken { (t tail : List ℕ) → scanned.Begins text.now t tail → scanned.TakesPair ids t tail result.0 result.1.now }
    ensures shorter { length result.1.now ≤ length text.now }
{
    if let Some(digits) = text.strip_prefix(b"c=") {
        let (number, left) = number_in_front(digits);
        let taken = IdsAsked {
            c: ids.c.or(number),
            cart: ids.cart,
        };
        return (taken, left);
    }
    if let Some(digits) = text.strip_prefix(b"cart=") {
        let (number, left) = number_in_front(digits);
        let taken = IdsAsked {
            c: ids.c,
            cart: ids.cart.or(number),
        };
        return (taken, left);
    }
    (ids, text)
}

/// The number that the pair in front is, if any; and what is left behind its first digits.
fn number_in_front(text: &[u8]) -> (Option<u32>, &[u8])
    ensures number { (t tail : List ℕ) → scanned.Begins text.now t tail → scanned.TakesNumber t tail result.0 result.1.now }
    ensures shorter { length result.1.now ≤ length text.now }
{
    let (value, left) = digits_in_front(text);
    if left.len() == text.len() {
        return (None, left);
    }
    if !pair_ends(left) {
        return (None, left);
    }
    (u32::try_from(value).ok(), left)
}

/// The number that the first digits write, at most ten of them; and what is left behind them.
fn digits_in_front(text: &[u8]) -> (u64, &[u8])
    ensures digits { scanned.AreDigits text.now result.0 result.1.now }
    ensures stops { scanned.Stops text.now result.1.now }
{
    let mut value = 0;
    let mut rest = text;
    while let [digit, after @ ..] = rest {
        if !digit.is_ascii_digit() {
            return (value, rest);
        }
        if text.len() - rest.len() == 10 {
            return (value, rest);
        }
        value = value * 10 + u64::from(*digit - b'0');
        rest = after;
    }
    (value, rest)
}

/// Whether the pair ends here.
fn pair_ends(text: &[u8]) -> bool
    ensures { (t tail : List ℕ) → scanned.Begins text.now t tail → result ≡ scanned.pair_over t }
{
    target_ends(text) || text.starts_with(b"&amp;")
}

/// Whether the target ends here.
fn target_ends(text: &[u8]) -> bool
    ensures { result ≡ scanned.ends text.now }
{
    match text {
        [] => true,
        [byte, ..] => *byte == b'"',
    }
}

/// What follows the pair of which some is left in front, where another pair follows it.
fn next_pair(left: &[u8]) -> Option<&[u8]>
    ensures next { (t tail : List ℕ) → scanned.IsLeft t tail left.now → scanned.IsNextPair t tail (option_map (λ after. after.now) result) }
    ensures shorter { IfSome result (λ after. length after.now < length left.now) }
{
    let mut rest = left;
    while !target_ends(rest) {
        let Some((byte, after)) = unescaped(rest) else {
            return None;
        };
        if byte == b'&' {
            return Some(after);
        }
        rest = after;
    }
    None
}
