//! The digits of numbers.
ghost use Rattle.std.specs.Prelude.{◌≡◌, ◌+◌, ◌/◌, ◌%◌, ◌<◌};

/// The digits of each number below 100.
static PAIRS: [u8; 200] =
    *b"00010203040506070809101112131415161718192021222324252627282930313233343536373839404142434445464748495051525354555657585960616263646566676869707172737475767778798081828384858687888990919293949596979899";

/// The last digit of a number.
#[inline(always)]
pub(crate) fn digit(number: u64) -> u8
    ensures { result ≡ 48 + number % 10 }
{
    b'0' + (number % 10) as u8
}

/// The two digits of a number below 100.
#[inline(always)]
pub(crate) fn digits(number: u64) -> (u8, u8)
    requires { number < 100 }
    ensures tens { result.0 ≡ 48 + number / 10 }
    ensures ones { result.1 ≡ 48 + number % 10 }
{
    let at = number as usize * 2;
    (PAIRS[at], PAIRS[at + 1])
}
