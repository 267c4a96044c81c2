//! The authorisation of a purchase, by its digits.
ghost use Rattle.std.specs.Prelude.{◌≡◌, ◌≤◌, length, true};
ghost use Rattle.std.specs.List.{list_all};
ghost use Rattle.std.specs.Char.{is_ascii_digit};
ghost use Rattle.std.specs.Str.Parse.{digits_value};
ghost use Rattle.shop_model.specs.rows.AuthIds.{IsAuthId};

use shop_model::AuthId;

/// The number that at most 15 digits write.
fn number_of(digits: &[u8]) -> u64
    requires few { length digits.now ≤ 15 }
    requires digits { list_all is_ascii_digit digits.now ≡ true }
    ensures { result ≡ digits_value 10 digits.now }
{
    let mut number = 0;
    for digit in digits {
        number = number * 10 + u64::from(*digit - b'0');
    }
    number
}

fn all_digits(bytes: &[u8]) -> bool
    ensures { result ≡ list_all is_ascii_digit bytes.now }
{
    bytes.iter().all(|byte| byte.is_ascii_digit())
}

/// The authorisation of these bytes, where they are fifteen digits.
pub(crate) fn auth_of(bytes: &[u8]) -> Option<AuthId>
    ensures { IsAuthId bytes.now → result ≡ Some bytes.now }
{
    if bytes.len() == 15 && all_digits(bytes) {
        Some(AuthId::of(number_of(bytes)))
    } else {
        None
    }
}
