//! Where what came of a session differs from what is wanted.
use std::fmt;

/// What differs first. Bytes are counted from 1.
#[derive(Clone, Copy)]
pub enum Difference {
    Written(usize),
    Told(usize),
    Status { got: u8, wanted: u8 },
}

impl fmt::Display for Difference {
    fn fmt<W: fmt::Write>(&self, f: &mut fmt::Formatter<W>) -> fmt::Result {
        match self {
            Difference::Written(place) => write!(f, "byte {place} differs"),
            Difference::Told(place) => write!(f, "byte {place} of the line told differs"),
            Difference::Status { got, wanted } => write!(f, "status {got}, wanted {wanted}"),
        }
    }
}

/// The first place, counted from 1, at which some bytes are not those that are wanted.
pub fn first_place(got: &[u8], wanted: &[u8]) -> Option<usize> {
    if got == wanted {
        return None;
    }
    let same = got.iter().zip(wanted).take_while(|(a, b)| a == b).count();
    Some(same.saturating_add(1))
}
