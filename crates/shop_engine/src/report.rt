ghost use Rattle.std.specs.Prelude.{◌≡◌};
ghost use Rattle.shop_engine.specs.Steps as spec;

use shop_attempt::Conflict;
use shop_edges::{Charge, Reason};
use shop_text::{Boxed, Listed, Text};

/// What decided an answer.
#[derive(Debug, Drop)]
pub enum PointKind {
    /// The message alone, or the refusal of it. The point's numbers are 0.
    Plain,
    /// The tables.
    At,
    /// A change that it made, whose number is the front.
    Change,
    /// A list that was read at most thirty seconds before, behind as many changes as the front says.
    List,
    /// Rows kept changing: what each of the tries met.
    Busy(Listed<Conflict>),
    /// The log, which has as many changes as it may have: the front.
    Full,
    /// The gateway, which denied this charge.
    Denied(Boxed<Charge>, Reason),
    /// The gateway, which failed.
    GatewayFailed,
}

/// What an answer stands on.
#[derive(Drop)]
pub struct Point {
    pub kind: PointKind,
    /// So many changes came before it; 0 where rows kept changing, and where the gateway failed.
    pub front: u64,
    /// Milliseconds since 1970-01-01.
    pub moment: u64,
    /// Which of the caller's accepted requests it answers, counted from 1.
    pub call: u64,
    /// The word that was drawn for it.
    pub draw: u32,
    /// How many attempts were settled for it.
    pub tries: u32,
}

/// The point of an answer that the message alone decides.
pub(crate) fn plain_point() -> Point
    ensures { result ≡ spec.plain_point }
{
    Point {
        kind: PointKind::Plain,
        front: 0,
        moment: 0,
        call: 0,
        draw: 0,
        tries: 0,
    }
}

/// How a connection ended.
#[derive(Clone, Copy, Debug, PartialEq, Eq)]
pub enum Ended {
    /// The source ended between two messages.
    Closed,
    /// The source ended inside a message.
    Cut,
    /// A message was refused, and the page of the refusal, with this status, was written first.
    Refused(u16),
    /// The source failed.
    ReadFault,
    /// The sink failed.
    WriteFault,
    /// Memory ran out.
    Memory,
    /// The last message that was answered asked for the end.
    Asked,
    /// As many messages were answered as a connection may have.
    Spent,
}

/// What became of a message.
#[derive(Drop)]
pub enum Answered {
    /// The bytes of the reply, and what it stands on.
    Reply(Text, Point),
    /// Memory ran out.
    Memory,
}

/// What became of a connection: its end, and a point for each answer.
#[derive(Drop)]
pub struct Report {
    pub end: Ended,
    pub points: Listed<Point>,
}

impl Report {
    /// The report of these points.
    pub(crate) fn of(end: Ended, points: Vec<Point>) -> Report
        ensures { result ≡ record { end = end; points = points.items } }
    {
        Report {
            end,
            points: Listed::from_vec(points),
        }
    }
}
