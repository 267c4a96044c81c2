//! The heads of replies (RFC 9112).
ghost use Rattle.std.specs.Prelude.{◌≡◌, ◌≤◌, ◌+◌, ◌++◌, length};
ghost use Rattle.shop_pages.specs.Replies as spec;
ghost use Rattle.shop_pages.specs.ReplyStates.{head_room};

use crate::reply::Form;
use http::StatusCode;
use shop_draft::Out;

/// The most bytes of a head.
pub(crate) const HEAD_ROOM: usize = 191;

/// The reason phrase of a status.
fn phrase_of(status: u16) -> &'static [u8]
    ensures value { result.now ≡ spec.phrase_of status }
    ensures most { length result.now ≤ 31 }
{
    match StatusCode::from_u16(status) {
        Ok(code) => match code.canonical_reason() {
            Some(phrase) => phrase.as_bytes(),
            None => b"",
        },
        Err(_) => b"",
    }
}

/// Adds the first line of a reply.
#[tactic(auto, unfolding(crate::specs::Replies::status_line, crate::specs::Replies::phrase_of))]
fn put_status_line(out: &mut Out, status: u16)
    requires { 71 ≤ out.old.room }
    ensures bytes { out.new.bytes ≡ out.old.bytes ++ spec.status_line status }
    ensures room { out.old.room ≤ out.new.room + 71 }
{
    out.put(b"HTTP/1.1 ");
    out.put_decimal(u64::from(status));
    out.put(b" ");
    out.put(phrase_of(status));
    out.put(b"\r\n");
}

/// Adds the methods that are served, where another one was asked for.
fn put_allow_line(out: &mut Out, status: u16)
    requires { 18 ≤ out.old.room }
    ensures bytes { out.new.bytes ≡ out.old.bytes ++ spec.allow_line status }
    ensures room { out.old.room ≤ out.new.room + 18 }
{
    if status == 405 {
        out.put(b"Allow: GET, POST\r\n");
    }
}

/// Adds that the connection ends, where it does.
fn put_close_line(out: &mut Out, form: Form)
    requires { 19 ≤ out.old.room }
    ensures bytes { out.new.bytes ≡ out.old.bytes ++ spec.close_line form }
    ensures room { out.old.room ≤ out.new.room + 19 }
{
    if form.close {
        out.put(b"Connection: close\r\n");
    }
}

/// Adds the head of a reply, line by line.
#[tactic(auto, unfolding(crate::specs::Replies::reply_head))]
fn put_lines(out: &mut Out, status: u16, len: u64, form: Form)
    requires { head_room ≤ out.old.room }
    ensures bytes { out.new.bytes ≡ out.old.bytes ++ spec.reply_head status len form }
    ensures room { out.old.room ≤ out.new.room + head_room }
{
    put_status_line(out, status);
    out.put(b"Content-Type: text/html; charset=utf-8\r\nContent-Length: ");
    out.put_decimal(len);
    out.put(b"\r\n");
    put_allow_line(out, status);
    put_close_line(out, form);
    out.put(b"\r\n");
}

/// Adds the head of a reply with this status, around a page of so many bytes; takes no memory. Around the number of
/// bytes most heads are the same.
pub(crate) fn put_head(out: &mut Out, status: u16, len: u64, form: Form)
    requires { head_room ≤ out.old.room }
    ensures bytes { out.new.bytes ≡ out.old.bytes ++ spec.reply_head status len form }
    ensures room { out.old.room ≤ out.new.room + head_room }
{
    if status == 200 && !form.close {
        out.put(b"HTTP/1.1 200 OK\r\nContent-Type: text/html; charset=utf-8\r\nContent-Length: ");
        out.put_decimal(len);
        out.put(b"\r\n\r\n");
    } else {
        put_lines(out, status, len, form);
    }
}
