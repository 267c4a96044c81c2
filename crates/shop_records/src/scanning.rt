ghost use Rattle.shop_records.specs.Scanning.{NextAs, ScannedAs};

use crate::PAYLOAD_LIMIT;

/// What stands at the front of bytes.
#[derive(Clone, Copy, Debug)]
pub(crate) enum Next<'a> {
    /// A record's payload, and what follows the record.
    Record(&'a [u8], &'a [u8]),
    /// A gate that is shut.
    Shut,
    /// Neither.
    Broken,
}

/// Reads what stands at the front.
pub(crate) fn next_record(bytes: &[u8]) -> Next<'_>
    ensures { NextAs bytes.now result }
{
    match bytes {
        [] => Next::Broken,
        [1, a, b, c, d, rest @ ..] => {
            let length = u32::from_be_bytes([*a, *b, *c, *d]) as usize;
            if length > PAYLOAD_LIMIT || length > rest.len() {
                return Next::Broken;
            }
            let (payload, rest) = rest.split_at(length);
            Next::Record(payload, rest)
        }
        [1, ..] => Next::Broken,
        [_, ..] => Next::Shut,
    }
}

/// What follows records, and whether that is a gate that is shut.
#[derive(Clone, Copy)]
pub(crate) struct Scanned<'a> {
    pub(crate) rest: &'a [u8],
    pub(crate) is_shut: bool,
}

/// Reads records up to a gate that is shut, or to what is neither.
pub(crate) fn scan(bytes: &[u8]) -> Scanned<'_>
    ensures { ScannedAs bytes.now result.rest.now result.is_shut }
{
    let mut rest = bytes;
    while let Next::Record(_, after) = next_record(rest) {
        rest = after;
    }
    let is_shut = matches!(next_record(rest), Next::Shut);
    Scanned { rest, is_shut }
}
