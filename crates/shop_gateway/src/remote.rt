ghost use Rattle.std.specs.Prelude.{◌≡◌, ◌≤◌};
ghost use Rattle.shop_gateway.specs.Remotes.{IsReply, IsTold, SaysWhole, link};

use crate::charge_line::set_charge_line;
use crate::line_reader::{LineReader, NextLine};
use crate::reply_line::verdict_told;
use shop_edges::{Charge, Gateway, Sink, Source, Verdict, write_all};
use shop_text::{Memory, Text};
use std::alloc::Global;
use std::marker::Model;

/// Room for the longest line that asks for a charge, which has 117 bytes.
const REQUEST_ROOM: usize = 128;

/// What came of a request.
#[derive(Clone, Copy)]
enum Reply {
    Told(Verdict),
    /// A whole line that tells no verdict.
    Unread,
    /// The source ended before the line was whole, or it is too long.
    Early,
    /// The source failed before the line was whole.
    ReadFault,
    /// The sink failed before the request was whole.
    WriteFault,
}

/// A gateway that is asked over a link, by a line for each charge. Where a request is left without its whole reply, it
/// asks nothing from then on, and fails.
#[derive(Drop)]
pub struct Remote<S: Source, K: Sink> {
    source: S,
    sink: K,
    reader: LineReader,
    request: Text,
    broken: bool,
    own: u64,
}

impl<S: Source, K: Sink> Model for Remote<S, K> {
    ghost use Rattle.shop_gateway.specs.Remotes.{RemoteValue};

    ghost Value = { RemoteValue S K };

    ghost view = { λ r. record { source = r.source; sink = r.sink; ahead = r.reader; broken = r.broken; own = r.own } };
}

/// What a whole line tells.
fn reply_of(line: &[u8]) -> Reply
    ensures told { IsTold line.now result }
    ensures said { SaysWhole result }
{
    match verdict_told(line) {
        Some(verdict) => Reply::Told(verdict),
        None => Reply::Unread,
    }
}

/// Writes a request, and reads the reply to it.
fn ask<S: Source, K: Sink>(
    source: &mut S,
    sink: &mut K,
    reader: &mut LineReader,
    request: &[u8],
) -> Reply
    ensures reply { IsReply
        (link (S.left source.old) (K.held sink.old) (S.faults source.old) (K.faults sink.old) reader.old)
        (link (S.left source.new) (K.held sink.new) (S.faults source.new) (K.faults sink.new) reader.new)
        request.now result }
    ensures said { SaysWhole result }
    ensures reads { S.faults source.old ≤ S.faults source.new }
    ensures writes { K.faults sink.old ≤ K.faults sink.new }
{
    if !write_all(sink, request) {
        return Reply::WriteFault;
    }
    match reader.next(source) {
        NextLine::Whole(len) => {
            let reply = reply_of(reader.line(len));
            reader.pass(len);
            reply
        }
        NextLine::End => Reply::Early,
        NextLine::Cut => Reply::Early,
        NextLine::TooLong => Reply::Early,
        NextLine::Failed => Reply::ReadFault,
    }
}

impl<S: Source, K: Sink> Remote<S, K> {
    ghost use Rattle.std.specs.Prelude.{◌≡◌, IfOk, false};
    ghost use Rattle.shop_gateway.specs.Remotes.{fresh, verdict_of, is_left, own_after};

    /// Nothing is asked yet.
    pub fn new(alloc: Global, source: S, sink: K) -> Result<Remote<S, K>, Memory>
    where
        S: Drop,
        K: Drop,
        ensures { IfOk result (λ remote. remote ≡ fresh source sink) }
    {
        Ok(Remote {
            source,
            sink,
            reader: LineReader::new(),
            request: Text::with_capacity(alloc, REQUEST_ROOM)?,
            broken: false,
            own: 0,
        })
    }

    /// Whether a request is left without its whole reply.
    pub fn is_broken(&self) -> bool
        ensures { result ≡ self.now.broken }
    {
        self.broken
    }

    /// How many faults were its own and none of its streams: replies that tell no verdict, and calls where it was broken.
    pub fn own(&self) -> u64
        ensures { result ≡ self.now.own }
    {
        self.own
    }

    pub fn source(&self) -> &S
        ensures { result.now ≡ self.now.source }
    {
        &self.source
    }

    pub fn sink(&self) -> &K
        ensures { result.now ≡ self.now.sink }
    {
        &self.sink
    }

    /// Takes what came of a request.
    fn take(&mut self, reply: Reply) -> Verdict
        requires { self.old.broken ≡ false }
        ensures verdict { result ≡ verdict_of reply }
        ensures state { self.new ≡ record self.old { broken = is_left reply; own = own_after reply self.old.own } }
    {
        match reply {
            Reply::Told(verdict) => return verdict,
            Reply::Unread => self.own = self.own.saturating_add(1),
            Reply::Early => {
                self.broken = true;
                self.own = self.own.saturating_add(1);
            }
            Reply::ReadFault => self.broken = true,
            Reply::WriteFault => self.broken = true,
        }
        Verdict::Failed
    }
}

impl<S: Source, K: Sink> Gateway for Remote<S, K> {
    ghost use Rattle.std.specs.Prelude.{◌≡◌, ◌≢◌, None, true, false};
    ghost use Rattle.shop_edges.specs.Gateways.{Answers, GatewayCause};
    ghost use Rattle.shop_gateway.specs.Remotes.{IsAsked, IsUnasked, count, link_of};

    ghost answers = { λ _. None };

    ghost faults = { λ r. count (S.faults r.source) (K.faults r.sink) r.own };

    fn authorize(&mut self, charge: &Charge) -> Verdict
        ensures told { Answers None None charge.now result }
        ensures cause { GatewayCause (count (S.faults self.old.source) (K.faults self.old.sink) self.old.own)
            (count (S.faults self.new.source) (K.faults self.new.sink) self.new.own) result }
        ensures memory { result ≡ Verdict.Memory → self.new ≡ self.old }
        ensures unasked { self.old.broken ≡ true → IsUnasked self.old self.new result }
        ensures asked { self.old.broken ≡ false → result ≢ Verdict.Memory →
            IsAsked (link_of S.left K.held S.faults K.faults self.old) (link_of S.left K.held S.faults K.faults self.new)
            self.old self.new charge.now result }
    {
        if self.broken {
            self.own = self.own.saturating_add(1);
            return Verdict::Failed;
        }
        if set_charge_line(&mut self.request, charge).is_err() {
            return Verdict::Memory;
        }
        let reply = ask(
            &mut self.source,
            &mut self.sink,
            &mut self.reader,
            self.request.bytes(),
        );
        self.take(reply)
    }
}
