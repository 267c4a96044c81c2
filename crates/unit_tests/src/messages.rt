ghost use Rattle.std.specs.Prelude.{◌≡◌, ◌<◌, false};

use http::Method;
use shop_edges::BytesIn;
use shop_message::*;
use shop_model::Refusal;
use shop_text::{Listed, Memory, Text};
use std::alloc::Global;
use std::test::Fail;

/// A source of these bytes, which gives at most `piece` of them at a read.
fn source(alloc: Global, bytes: &[u8], piece: usize, fails: &[u64]) -> Result<BytesIn, Memory>
    requires { 0 < piece }
{
    let fails = Listed::from_vec(Vec::from_slice(alloc, fails)?);
    Ok(BytesIn::new(Text::copy(alloc, bytes)?, piece, fails))
}

/// What comes first of a source.
fn first_of(alloc: Global, source: &mut BytesIn) -> Result<Next, Memory> {
    let mut gather = Gather::new(alloc)?;
    Ok(next_message(source, &mut gather))
}

/// What comes first of these bytes.
fn first(alloc: Global, bytes: &[u8]) -> Result<Next, Memory> {
    first_of(alloc, &mut source(alloc, bytes, 3, &[])?)
}

/// Whether the message is this.
fn is(next: &Next, method: &Method, target: &[u8], body: &[u8], close: bool) -> bool {
    match next {
        Next::Message(message) => {
            message.method == *method
                && message.target.bytes() == target
                && message.body.bytes() == body
                && message.close == close
        }
        _ => false,
    }
}

/// Whether a source gives a POST.
fn gives_post(source: &mut BytesIn, gather: &mut Gather) -> bool
    requires { gather.old.ended ≡ false }
    ensures { gather.new.ended ≡ false }
{
    let next = next_message(source, gather);
    is(&next, &Method::POST, b"/a", b"hi", false)
}

/// Whether a source gives a GET.
fn gives_get(source: &mut BytesIn, gather: &mut Gather, target: &[u8], close: bool) -> bool
    requires { gather.old.ended ≡ false }
    ensures { gather.new.ended ≡ false }
{
    let next = next_message(source, gather);
    is(&next, &Method::GET, target, b"", close)
}

/// Whether a source gives a POST, a GET and no more.
fn gives_two(source: &mut BytesIn, gather: &mut Gather) -> bool
    requires { gather.old.ended ≡ false }
{
    gives_post(source, gather)
        && gives_get(source, gather, b"/b", true)
        && matches!(next_message(source, gather), Next::End)
}

/// Whether the same is so where the source gives at most `piece` bytes at a read.
fn gives_two_in_pieces(alloc: Global, piece: usize) -> Result<bool, Memory>
    requires { 0 < piece }
{
    let bytes = b"\r\nPOST /a HTTP/1.1\nContent-Length: 02\n\nhiGET /b HTTP/1.0\r\n\r\n\n";
    let mut source = source(alloc, bytes, piece, &[])?;
    let mut gather = Gather::new(alloc)?;
    Ok(gives_two(&mut source, &mut gather))
}

#[test]
fn messages_follow_one_another(rt: HostRuntime) -> Result<(), Fail> {
    for piece in [1, 7, 99] {
        assert!(rt; gives_two_in_pieces(rt.alloc(), piece)?, "{piece}");
    }
    Ok(())
}

/// Whether the connection is to end after a request with these fields, if it is a message.
fn closes(alloc: Global, fields: &str) -> Result<Option<bool>, Memory> {
    let bytes = format!(in alloc; "G / HTTP/1.1\n{fields}\n")?;
    match first(alloc, bytes.as_bytes())? {
        Next::Message(message) => Ok(Some(message.close)),
        _ => Ok(None),
    }
}

#[test]
fn a_connection_field_asks_for_the_end(rt: HostRuntime) -> Result<(), Fail> {
    for (fields, close) in [
        ("A: close\n", false),
        ("Connection: closed, clos e\n", false),
        ("connection: keep-alive, \tCLOSE \n", true),
        ("Connection: x\nA: b\nConnection: x,close\n", true),
    ] {
        assert!(rt; closes(rt.alloc(), fields)? == Some(close), "{fields}");
    }
    Ok(())
}

/// What is told of bytes that are no message.
#[derive(Clone, Copy)]
enum Told {
    End,
    Cut,
    Bad(Refusal),
}

const BAD: Told = Told::Bad(Refusal::BadRequest);

/// Whether this is told.
fn is_told(next: &Next, told: Told) -> bool {
    match (next, told) {
        (Next::End, Told::End) | (Next::Cut, Told::Cut) => true,
        (Next::Bad(refusal), Told::Bad(wanted)) => *refusal == wanted,
        _ => false,
    }
}

/// Whether this is told of these bytes.
fn tells(alloc: Global, bytes: &str, told: Told) -> Result<bool, Memory> {
    Ok(is_told(&first(alloc, bytes.as_bytes())?, told))
}

#[test]
fn what_is_no_message_is_told(rt: HostRuntime) -> Result<(), Fail> {
    for (bytes, told) in [
        ("\r\n\n", Told::End),
        ("G", Told::Cut),
        ("G / HTTP/1.1\nContent-Length: 2\n\nx", Told::Cut),
        ("G\n\n", BAD),
        ("G / HTTP/1.1\nContent-Length: +5\n\n", BAD),
        (
            "G / HTTP/1.1\nContent-Length: 1\nContent-Length: 1\n\nx",
            BAD,
        ),
        (
            "G / HTTP/1.1\nContent-Length: 16385\n\n",
            Told::Bad(Refusal::LargeBody),
        ),
        (
            "G / HTTP/1.1\nContent-Length: x\nTransfer-Encoding:\n\n",
            Told::Bad(Refusal::TransferEncoding),
        ),
    ] {
        assert!(rt; tells(rt.alloc(), bytes, told)?, "{bytes}");
    }
    Ok(())
}

/// Whether a source fails at first, and then gives a GET.
fn fails_and_gives(alloc: Global, source: &mut BytesIn) -> Result<bool, Memory> {
    let mut gather = Gather::new(alloc)?;
    Ok(
        matches!(next_message(source, &mut gather), Next::ReadFault)
            && gives_get(source, &mut gather, b"/", false),
    )
}

#[test]
fn a_failed_read_is_told(rt: HostRuntime) -> Result<(), Fail> {
    let mut source = source(rt.alloc(), b"GET / HTTP/1.1\n\n", 9, &[2])?;
    assert!(rt; fails_and_gives(rt.alloc(), &mut source)?);
    Ok(())
}

/// Whether both tell the same.
fn tell_the_same(gathered: &Gathered, next: &Next) -> bool {
    match (gathered, next) {
        (Gathered::Message(message), Next::Message(_)) => is(
            next,
            &message.method,
            message.target.bytes(),
            message.body.bytes(),
            message.close,
        ),
        (Gathered::End, Next::End) | (Gathered::Cut, Next::Cut) => true,
        (Gathered::Bad(refusal), Next::Bad(other)) => refusal == other,
        _ => false,
    }
}

/// Whether a gatherer tells next what a reader does, or wants more bytes.
fn agrees(gather: &mut Gather, source: &mut BytesIn, reader: &mut Gather) -> bool
    requires { reader.old.ended ≡ false }
    ensures gather { gather.new.ended ≡ gather.old.ended }
    ensures reader { reader.new.ended ≡ false }
{
    match gather.take() {
        Gathered::More => true,
        gathered => tell_the_same(&gathered, &next_message(source, reader)),
    }
}

/// Whether a gatherer that is given these bytes in such pieces tells what a reader does: a message of each piece
/// that ends one, and behind the last piece the others, and how they stop.
fn gathers(alloc: Global, bytes: &str, piece: usize) -> Result<bool, Memory>
    requires { 0 < piece }
{
    let mut source = source(alloc, bytes.as_bytes(), 99, &[])?;
    let (mut gather, mut reader) = (Gather::new(alloc)?, Gather::new(alloc)?);
    for part in bytes.as_bytes().chunks(piece) {
        gather.give(part)?;
        if !agrees(&mut gather, &mut source, &mut reader) {
            return Ok(false);
        }
    }
    gather.end();
    Ok(
        agrees(&mut gather, &mut source, &mut reader)
            && agrees(&mut gather, &mut source, &mut reader)
            && agrees(&mut gather, &mut source, &mut reader),
    )
}

const PRODUCT_DETAIL: &str = "GET /product_detail?item=1 HTTP/1.1\r\nHost: shop\r\n\r\n";

/// A newcomer's purchase.
const PURCHASE: &str = concat!(
    "GET /shopping_cart?item=1 HTTP/1.1\r\nHost: shop\r\n\r\n",
    "POST /buy_request HTTP/1.1\r\nHost: shop\r\nContent-Length: 113\r\n\r\n",
    "cart=1&fn=Zoe&ln=O%27Hara+%26+Co&street1=1+Way&city=Ulm&zip=89073&country=7",
    "&phone=5550000000&email=z@shop.example",
    "GET /buy_confirm?c=41&cart=1&card=VISA&number=4111222233334444&name=F&expiry=2027-05 HTTP/1.1\r\n",
    "Host: shop\r\nConnection: close\r\n\r\n",
);

#[test]
fn bytes_are_gathered_from_pieces(rt: HostRuntime) -> Result<(), Fail> {
    for bytes in [PRODUCT_DETAIL, PURCHASE, "GET / HTTP/1.1\r\n", "\nG\n\n"] {
        for piece in [1, 7, 999] {
            assert!(rt;
                gathers(rt.alloc(), bytes, piece)?,
                "{bytes} in pieces of {piece}"
            );
        }
    }
    Ok(())
}

/// Whether a message is taken from behind so many line ends.
fn is_behind_line_ends(alloc: Global, count: usize) -> Result<bool, Memory> {
    let mut gather = Gather::new(alloc)?;
    gather.give(&vec![in alloc; b'\n'; count]?)?;
    gather.give(PRODUCT_DETAIL.as_bytes())?;
    let is_more = matches!(gather.take(), Gathered::Message(_)) && !gather.is_ended();
    gather.end();
    Ok(is_more && matches!(gather.take(), Gathered::End))
}

#[test]
fn more_bytes_are_held_than_those_of_the_longest_message(rt: HostRuntime) -> Result<(), Fail> {
    assert!(rt; is_behind_line_ends(rt.alloc(), 40_000)?);
    Ok(())
}

#[test]
fn the_laws_are_called() {
    messages_are_one();
    beginnings_are_one();
    more_is_undecided();
}
