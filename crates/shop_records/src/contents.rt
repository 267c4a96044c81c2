use crate::HEADER;
use crate::scanning::{Next, next_record};
use shop_text::Memory;
use std::alloc::Global;
use std::marker::Model;

/// The bytes of a file that keeps records. Contracts see these bytes.
#[derive(Drop)]
pub struct Contents {
    pub(crate) bytes: Vec<u8>,
}

impl Model for Contents {
    ghost use Rattle.std.specs.Prelude.{List, ℕ};
    ghost use Rattle.shop_records.specs.Records.{IsKept};

    ghost Value = { List ℕ };

    ghost view = { λ c. c.bytes.items };

    ghost invariant = { λ c. IsKept c.bytes.items };
}

impl Contents {
    ghost use Rattle.std.specs.Prelude.{◌≡◌, ℕ, List, map, IfOk};
    ghost use Rattle.shop_records.specs.Records.{Keeps, IsKept};

    /// What stands in front of the records.
    pub fn header(&self) -> &[u8]
        ensures kept { IsKept self.now }
        ensures header { (header : List ℕ) (payloads : List (List ℕ)) → Keeps header payloads self.now → result.now ≡ header }
    {
        &self.bytes[..HEADER]
    }

    /// The payloads of the records. It takes room for their places alone.
    pub fn payloads(&self, alloc: Global) -> Result<Vec<&[u8]>, Memory>
        ensures payloads { (header : List ℕ) (payloads : List (List ℕ)) → Keeps header payloads self.now
            → IfOk result (λ found. map (λ p. p.now) found.items ≡ payloads) }
    {
        let mut payloads = Vec::new(alloc);
        let mut rest = &self.bytes[HEADER..];
        while let Next::Record(payload, after) = next_record(rest) {
            payloads.push(payload)?;
            rest = after;
        }
        Ok(payloads)
    }
}
