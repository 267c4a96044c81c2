//! What messages ask for. Of each a line of the input has the method, the target and the body.
use crate::answers::{answer, heading};
use crate::stop::Stop;
use http::Method;
use shop_http::{Asked, Message, Routes, request};
use shop_text::{Memory, Text};
use std::alloc::Global;

/// A message of these parts.
fn message(alloc: Global, method: &str, target: &[u8], body: &str) -> Result<Message, Memory> {
    let Ok(method) = Method::from_bytes(alloc, method.as_bytes()) else {
        return Err(Memory);
    };
    Ok(Message {
        method,
        target: Text::copy(alloc, target)?,
        body: Text::copy(alloc, body.as_bytes())?,
        close: false,
    })
}

/// What a message of these parts asks for.
fn asked(
    alloc: Global,
    routes: &Routes,
    method: &str,
    target: &[u8],
    body: &str,
) -> Result<Asked, Memory> {
    Ok(request(alloc, routes, &message(alloc, method, target, body)?))
}

/// Prints what the message on a line asks for.
pub fn print_line(
    rt: &(impl Print + AllocGlobal),
    routes: &Routes,
    line: &str,
) -> Result<(), Stop> {
    let (method, rest) = line.split_once(' ').unwrap_or((line, ""));
    let (target, body) = rest.split_once(' ').unwrap_or((rest, ""));
    let asked = asked(rt.alloc(), routes, method, target.as_bytes(), body)?;
    answer(rt, &line, &asked)
}

/// Prints what a target asks for that is not text.
pub fn print_no_text(rt: &(impl Print + AllocGlobal), routes: &Routes) -> Result<(), Stop> {
    heading(rt, "a target may be no text")?;
    let target = b"/home\xFF".as_slice();
    let asked = asked(rt.alloc(), routes, "GET", target, "")?;
    answer(rt, &target, &asked)
}
