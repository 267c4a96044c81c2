ghost use Rattle.std.specs.Prelude.{◌<◌, ◌≤◌, length};

use crate::line_cases::{CARDS, FORMS, LEDGER, MIXED, NUMBERS};
use shop_edges::{BytesIn, BytesOut, Charge, Gateway, Reason, Verdict};
use shop_gateway::{Emulator, Remote, Served, serve_gateway};
use shop_model::{AuthId, CardNumber, CardType, Month};
use shop_text::{Listed, Memory, Text};
use std::alloc::Global;
use std::test::Fail;

/// More bytes than any line or reply has.
const ALL: usize = 100_000;

/// A source of these bytes, which gives at most `piece` of them at a read.
fn source(alloc: Global, bytes: &[u8], piece: usize, fails: &[u64]) -> Result<BytesIn, Memory>
    requires { 0 < piece }
{
    let fails = Listed::from_vec(Vec::from_slice(alloc, fails)?);
    Ok(BytesIn::new(Text::copy(alloc, bytes)?, piece, fails))
}

/// A sink that takes at most `piece` bytes at a write.
fn sink(alloc: Global, piece: usize, fails: &[u64]) -> Result<BytesOut, Memory> {
    let fails = Listed::from_vec(Vec::from_slice(alloc, fails)?);
    Ok(BytesOut::new(alloc, piece, fails))
}

/// How many lines end in the bytes.
fn ends(bytes: &[u8]) -> usize {
    bytes.iter().filter(|byte| **byte == b'\n').count()
}

/// How a service of a new gateway ends, and the entries that its ledger has then.
fn serve(alloc: Global, source: &mut BytesIn, sink: &mut BytesOut) -> (Served, usize) {
    let mut emulator = Emulator::new(alloc);
    let end = serve_gateway(&mut emulator, source, sink);
    (end, emulator.ledger().len())
}

/// Whether a service of this input ends so and writes this, where streams move at most `piece` bytes.
fn is_served(
    alloc: Global,
    input: &[u8],
    piece: usize,
    end: Served,
    output: &[u8],
) -> Result<bool, Memory>
    requires { 0 < piece }
{
    let mut source = source(alloc, input, piece, &[])?;
    let mut sink = sink(alloc, piece, &[])?;
    let served = serve(alloc, &mut source, &mut sink);
    Ok(served.0 == end && sink.bytes() == output)
}

/// Lines, and the replies to them.
struct Talk {
    lines: Text,
    replies: Text,
}

/// The lines and replies of cases.
fn talk_of(alloc: Global, cases: &str) -> Result<Talk, Memory> {
    let mut lines = Text::new(alloc);
    let mut replies = Text::new(alloc);
    for case in cases.split('\n') {
        if let Some((reply, line)) = case.split_once(':') {
            lines.push(line.as_bytes())?;
            lines.push(b"\n")?;
            replies.push(reply.as_bytes())?;
            replies.push(b"\n")?;
        }
    }
    Ok(Talk { lines, replies })
}

#[test]
fn lines_get_their_replies(rt: HostRuntime) -> Result<(), Fail> {
    for cases in [NUMBERS, CARDS, FORMS, LEDGER, MIXED] {
        let Talk { lines, replies } = talk_of(rt.alloc(), cases)?;
        for piece in [1, 7, ALL] {
            assert!(rt;
                is_served(
                    rt.alloc(),
                    lines.bytes(),
                    piece,
                    Served::Closed,
                    replies.bytes()
                )?,
                "{cases}"
            );
        }
    }
    Ok(())
}

#[test]
fn services_end(rt: HostRuntime) -> Result<(), Fail> {
    for (letters, behind, end, output) in [
        (0, "", Served::Closed, ""),
        (0, "\n", Served::Closed, "BAD\n"),
        (1, "", Served::Cut, ""),
        (0, "\nx", Served::Cut, "BAD\n"),
        (
            0,
            "AUTH 0-0-0 VISA 4111222233334444 2027-05 0",
            Served::Cut,
            "",
        ),
        (
            0,
            "AUTH 0-0-0 VISA 4111222233334444 2027-05 0\n",
            Served::Closed,
            "OK 111222233334444\n",
        ),
        (200, "", Served::Cut, ""),
        (201, "", Served::TooLong, "BAD\n"),
        (200, "\n", Served::Closed, "BAD\n"),
        (200, "\n\ny", Served::Cut, "BAD\nBAD\n"),
        (201, "\n", Served::TooLong, "BAD\n"),
        (201, "\n\n\n", Served::TooLong, "BAD\n"),
        (513, "", Served::TooLong, "BAD\n"),
        (5000, "\n", Served::TooLong, "BAD\n"),
    ] {
        let mut input = Text::from_vec(vec![in rt.alloc(); b'y'; letters]?);
        input.push(behind.as_bytes())?;
        for piece in [1, 7, ALL] {
            assert!(rt;
                is_served(rt.alloc(), input.bytes(), piece, end, output.as_bytes())?,
                "{letters} {behind}"
            );
        }
    }
    Ok(())
}

/// Four lines, of which the second is not in the grammar.
const LINES: &[u8] = b"AUTH 1-2-2776 VISA 4111222233334444 2027-05 2776\n\
AUTH 1-2-2776 VISA 4111222233334444 2027-05 2777\n\
AUTH 1-3-924 VISA 4111222233330000 2027-05 924\n\
AUTH 1-4-1000001 AMEX 4111222233334444 2027-05 1000001\n";

/// The replies to them.
const REPLIES: &[u8] = b"OK 111225009362787\nBAD\nNO stolen\nNO limit\n";

/// How many entries a ledger has after so many of them.
fn entries_after(lines: usize) -> usize {
    match lines {
        0 => 0,
        1 => 1,
        2 => 1,
        3 => 2,
        _ => 3,
    }
}

/// How many bytes come before a read, counted from 1, in pieces.
fn bytes_before(read: usize, piece: usize, bytes: &[u8]) -> usize
    ensures { result ≤ length bytes.now }
{
    piece
        .saturating_mul(read.saturating_sub(1))
        .min(bytes.len())
}

/// Whether a service whose read fails has replied to the lines that came before it, and to no other.
fn stops_at_read(alloc: Global, read: usize, piece: usize) -> Result<bool, Memory>
    requires { 0 < piece }
{
    let came = ends(&LINES[..bytes_before(read, piece, LINES)]);
    let mut source = source(alloc, LINES, piece, &[read as u64])?;
    let mut sink = sink(alloc, ALL, &[])?;
    let (end, entries) = serve(alloc, &mut source, &mut sink);
    Ok(
        end == Served::ReadFault
            && source.faults() == 1
            && sink.faults() == 0
            && entries == entries_after(came)
            && REPLIES.starts_with(sink.bytes())
            && ends(sink.bytes()) == came,
    )
}

#[test]
fn a_read_fails(rt: HostRuntime) -> Result<(), Fail> {
    for piece in [1, 7, ALL] {
        for read in 1..=LINES.len().div_ceil(piece) + 1 {
            assert!(rt; stops_at_read(rt.alloc(), read, piece)?, "{piece} {read}");
        }
    }
    Ok(())
}

/// How many bytes of the replies are written before a write, counted from 1, in pieces. Each reply begins a write.
fn written_before(write: usize, piece: usize) -> usize {
    let mut writes: usize = 1;
    let mut at_line: usize = 0;
    let mut written: usize = 0;
    for byte in REPLIES {
        if at_line == piece {
            writes = writes.saturating_add(1);
            at_line = 0;
        }
        if writes >= write {
            return written;
        }
        written = written.saturating_add(1);
        at_line = at_line.saturating_add(1);
        if *byte == b'\n' {
            writes = writes.saturating_add(1);
            at_line = 0;
        }
    }
    written
}

/// Whether a service whose write fails has written what comes before it, and decided the line of that reply and no other.
fn stops_at_write(alloc: Global, write: usize, piece: usize) -> Result<bool, Memory> {
    let mut source = source(alloc, LINES, ALL, &[])?;
    let mut sink = sink(alloc, piece, &[write as u64])?;
    let (end, entries) = serve(alloc, &mut source, &mut sink);
    let written = written_before(write, piece);
    let is_cut = written < REPLIES.len();
    let wanted = if is_cut {
        Served::WriteFault
    } else {
        Served::Closed
    };
    Ok(
        end == wanted
            && sink.faults() == u64::from(is_cut)
            && source.faults() == 0
            && entries == entries_after(ends(sink.bytes()).saturating_add(1))
            && REPLIES.starts_with(sink.bytes())
            && sink.bytes().len() == written,
    )
}

#[test]
fn a_write_fails(rt: HostRuntime) -> Result<(), Fail> {
    for piece in [1, 7, ALL] {
        for write in 1..=REPLIES.len().div_ceil(piece) + 4 {
            assert!(rt;
                stops_at_write(rt.alloc(), write, piece)?,
                "{piece} {write}"
            );
        }
    }
    Ok(())
}

/// A link's end that a remote gateway reads and writes, in memory.
type Asking = Remote<BytesIn, BytesOut>;

/// What caller 1 asks for in a call, if the card's number has its form.
fn charge(call: u64, cents: u64) -> Option<Charge> {
    Some(Charge {
        caller: 1,
        call,
        cents,
        card: CardType::Visa,
        number: CardNumber::of(b"4111222233334444")?,
        expiry: Month::of(b"2027-05")?,
    })
}

/// A remote gateway over these replies, whose streams move at most `piece` bytes and fail at these calls.
fn remote(
    alloc: Global,
    replies: &[u8],
    piece: usize,
    reads: &[u64],
    writes: &[u64],
) -> Result<Asking, Memory>
    requires { 0 < piece }
{
    Remote::new(
        alloc,
        source(alloc, replies, piece, reads)?,
        sink(alloc, piece, writes)?,
    )
}

/// The verdict on call 2 of 27.76.
fn approved() -> Verdict {
    Verdict::Approved(AuthId::of(111_225_009_362_787))
}

/// Whether a gateway gives this verdict, has so many faults of its own then, and is broken or not.
fn answers(remote: &mut Asking, charge: &Charge, verdict: Verdict, own: u64, broken: bool) -> bool {
    remote.authorize(charge) == verdict && remote.own() == own && remote.is_broken() == broken
}

#[test]
fn a_remote_gateway_reads_replies(rt: HostRuntime) -> Result<(), Fail> {
    let charge = charge(2, 2776).ok_or("not in its form")?;
    let request = b"AUTH 1-2-2776 VISA 4111222233334444 2027-05 2776\n";
    let replies = b"OK 111225009362787\nNO limit\nBAD\nOK 12\nOK 0001112223334445\nNO stolen ";
    for piece in [1, 7, ALL] {
        let mut remote = remote(rt.alloc(), replies, piece, &[], &[])?;
        for (verdict, own, broken) in [
            (approved(), 0, false),
            (Verdict::Denied(Reason::Limit), 0, false),
            (Verdict::Failed, 1, false),
            (Verdict::Failed, 2, false),
            (Verdict::Failed, 3, false),
            (Verdict::Failed, 4, true),
            (Verdict::Failed, 5, true),
            (Verdict::Failed, 6, true),
        ] {
            assert!(rt;
                answers(&mut remote, &charge, verdict, own, broken),
                "{own}"
            );
        }
        assert!(rt; remote.sink().bytes() == request.repeat(rt.alloc(), 6)?.as_slice());
    }
    Ok(())
}

/// Three replies, of which the last tells no verdict.
const TOLD: &[u8] = b"OK 111225009362787\nNO limit\nBAD\n";

/// The verdict of a call, counted from 1, where so many replies come whole.
fn verdict_at(call: usize, whole: usize) -> Verdict {
    if call > whole {
        return Verdict::Failed;
    }
    match call {
        1 => approved(),
        2 => Verdict::Denied(Reason::Limit),
        _ => Verdict::Failed,
    }
}

/// The faults of its own after three calls where so many replies come whole: `BAD`, and calls on a broken link.
fn own_at(whole: usize) -> u64 {
    match whole {
        0 => 2,
        1 => 1,
        2 => 0,
        _ => 1,
    }
}

/// Whether three calls get the replies that come whole, and the link is broken where one of the three doesn't.
fn asks_thrice(remote: &mut Asking, charge: &Charge, whole: usize) -> bool {
    for call in 1..=3 {
        if remote.authorize(charge) != verdict_at(call, whole)
            || remote.is_broken() != (call > whole)
        {
            return false;
        }
    }
    remote.own() == own_at(whole)
}

/// Whether a remote gateway whose read fails gives the replies that came before it, and none from then on.
fn breaks_at_read(alloc: Global, charge: &Charge, read: usize, piece: usize) -> Result<bool, Memory>
    requires { 0 < piece }
{
    let whole = ends(&TOLD[..bytes_before(read, piece, TOLD)]);
    let mut remote = remote(alloc, TOLD, piece, &[read as u64], &[])?;
    Ok(
        asks_thrice(&mut remote, charge, whole)
            && remote.source().faults() == u64::from(whole < 3)
            && ends(remote.sink().bytes()) == whole.saturating_add(1).min(3),
    )
}

#[test]
fn a_remote_gateway_breaks_at_a_read(rt: HostRuntime) -> Result<(), Fail> {
    let charge = charge(2, 2776).ok_or("not in its form")?;
    for piece in [1, 7, ALL] {
        for read in 1..=TOLD.len().div_ceil(piece) + 1 {
            assert!(rt;
                breaks_at_read(rt.alloc(), &charge, read, piece)?,
                "{piece} {read}"
            );
        }
    }
    Ok(())
}

/// Three requests.
const REQUESTS: &[u8] = b"AUTH 1-2-2776 VISA 4111222233334444 2027-05 2776\n\
AUTH 1-2-2776 VISA 4111222233334444 2027-05 2776\n\
AUTH 1-2-2776 VISA 4111222233334444 2027-05 2776\n";

/// The bytes of one of them.
const REQUEST_LEN: usize = 49;

/// Whether a remote gateway whose write fails gives the replies to the requests before it, and none from then on.
fn breaks_at_write(
    alloc: Global,
    charge: &Charge,
    write: usize,
    piece: usize,
) -> Result<bool, Memory>
    requires { 0 < piece }
{
    let before = write.saturating_sub(1);
    let writes = REQUEST_LEN.div_ceil(piece);
    let whole = (before / writes).min(3);
    let part = if whole < 3 {
        (before % writes).saturating_mul(piece)
    } else {
        0
    };
    let mut remote = remote(alloc, TOLD, piece, &[], &[write as u64])?;
    Ok(
        asks_thrice(&mut remote, charge, whole)
            && remote.sink().faults() == u64::from(whole < 3)
            && REQUESTS.starts_with(remote.sink().bytes())
            && remote.sink().bytes().len() == (whole * REQUEST_LEN).saturating_add(part),
    )
}

#[test]
fn a_remote_gateway_breaks_at_a_write(rt: HostRuntime) -> Result<(), Fail> {
    let charge = charge(2, 2776).ok_or("not in its form")?;
    for piece in [1, 7, ALL] {
        for write in 1..=3 * REQUEST_LEN.div_ceil(piece) + 1 {
            assert!(rt;
                breaks_at_write(rt.alloc(), &charge, write, piece)?,
                "{piece} {write}"
            );
        }
    }
    Ok(())
}

/// Whether a gateway gives these verdicts on charges of these calls and cents.
fn gives<G: Gateway>(gateway: &mut G, cases: &[(u64, u64, Verdict)]) -> bool {
    for (call, cents, verdict) in cases {
        match charge(*call, *cents) {
            Some(charge) => {
                if gateway.authorize(&charge) != *verdict {
                    return false;
                }
            }
            None => return false,
        }
    }
    true
}

/// What a gateway replies to the requests of a remote one, which gets the verdict `BAD` on each.
fn replies_to(alloc: Global, cases: &[(u64, u64, Verdict)]) -> Result<Text, Memory> {
    let mut asking = remote(alloc, &b"BAD\n".repeat(alloc, 9)?, ALL, &[], &[])?;
    for (call, cents, _) in cases {
        if let Some(charge) = charge(*call, *cents) {
            asking.authorize(&charge);
        }
    }
    let mut source = source(alloc, asking.sink().bytes(), ALL, &[])?;
    let mut sink = sink(alloc, ALL, &[])?;
    serve(alloc, &mut source, &mut sink);
    Text::copy(alloc, sink.bytes())
}

#[test]
fn a_remote_gateway_gets_the_verdicts_of_the_other_end(rt: HostRuntime) -> Result<(), Fail> {
    let cases = [
        (2, 2776, approved()),
        (2, 2776, approved()),
        (0, 1_000_001, Verdict::Denied(Reason::Limit)),
        (
            5,
            1_000_000,
            Verdict::Approved(AuthId::of(112_222_236_384_480)),
        ),
        (5, 999_999_999_999_999_999, Verdict::Denied(Reason::Limit)),
        (1_000_000_000_000_000_000, 1, Verdict::Failed),
        (1, u64::MAX, Verdict::Failed),
        (2, 2776, approved()),
    ];
    let replies = replies_to(rt.alloc(), &cases)?;
    let mut remote = remote(rt.alloc(), replies.bytes(), 7, &[], &[])?;
    assert!(rt; gives(&mut remote, &cases));
    assert!(rt; remote.own() == 2);
    assert!(rt; !remote.is_broken());
    Ok(())
}
