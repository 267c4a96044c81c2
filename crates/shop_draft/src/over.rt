//! Bytes that are written over others.
ghost use Rattle.std.specs.Prelude.{◌≡◌, ◌≤◌, ◌<◌, ◌+◌, ◌++◌, length, take, drop, decimal};

use crate::digits::{digit, digits};

/// Numbers below this have at most four digits.
pub(crate) const FEW: u64 = 10_000;

/// Writes the bytes of an array over the first ones: as one value, which is no part of them.
#[inline(always)]
fn write_front<const N: usize>(bytes: &mut [u8], more: &[u8; N])
    requires { N ≤ length bytes.old }
    ensures { bytes.new ≡ more.now ++ drop N bytes.old }
{
    match bytes.first_chunk_mut::<N>() {
        Some(front) => *front = *more,
        None => unreachable!(),
    }
}

/// Writes the bytes of an array over those from a place on.
#[inline(always)]
pub(crate) fn write_array<const N: usize>(bytes: &mut [u8], start: usize, more: &[u8; N])
    requires { start + N ≤ length bytes.old }
    ensures { bytes.new ≡ take start bytes.old ++ more.now ++ drop (start + N) bytes.old }
{
    write_front(&mut bytes[start..], more);
}

/// Writes the digits of a number over the bytes from a place on; answers where they end.
#[inline(always)]
pub(crate) fn write_few(bytes: &mut [u8], start: usize, number: u64) -> usize
    requires few { number < 10_000 }
    requires room { start + 4 ≤ length bytes.old }
    ensures text { take result bytes.new ≡ take start bytes.old ++ decimal number }
    ensures end { result ≤ start + 4 }
    ensures same { length bytes.new ≡ length bytes.old }
{
    if number < 10 {
        write_array(bytes, start, &[digit(number)]);
        start + 1
    } else if number < 100 {
        let (tens, ones) = digits(number);
        write_array(bytes, start, &[tens, ones]);
        start + 2
    } else if number < 1_000 {
        let (tens, ones) = digits(number % 100);
        write_array(bytes, start, &[digit(number / 100), tens, ones]);
        start + 3
    } else {
        let (thousands, hundreds) = digits(number / 100);
        let (tens, ones) = digits(number % 100);
        write_array(bytes, start, &[thousands, hundreds, tens, ones]);
        start + 4
    }
}
