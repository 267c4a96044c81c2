//! What a drive and a race print.
ghost use Rattle.std.specs.Prelude.{◌≡◌, ◌++◌, IfOk, OnOk};
ghost use Rattle.shop_book.specs.Books.{tables_of};
ghost use Rattle.shop_app.specs.Summaries as spec;

use shop_book::{Book, Summary};
use shop_drive::Tally;
use shop_edges::{Answer, Verdict};
use shop_text::{Memory, Text};
use std::alloc::Global;

/// The bytes for which room is made: more than seven lines have, each with a name of at most 15 bytes and a
/// number of at most 20. The lines of many callers make more.
const ROOM: usize = 280;

/// How many of these answers are approvals whose authorisation no order has.
pub fn authorised_only(answers: &[Answer], book: &Book) -> u64
    ensures { result ≡ spec.authorised_only answers.now (tables_of book.now) }
{
    let mut count = 0;
    for answer in answers {
        if is_unused(&answer.verdict, book) {
            count += 1;
        }
    }
    count
}

/// Whether it is an approval whose authorisation no order has.
fn is_unused(verdict: &Verdict, book: &Book) -> bool
    ensures { result ≡ spec.is_unused (tables_of book.now) verdict.now }
{
    match verdict {
        Verdict::Approved(auth) => !book.has_auth(auth),
        Verdict::Denied(_) | Verdict::Failed | Verdict::Memory => false,
    }
}

/// Adds a line of a name and a number.
fn push_line(text: &mut Text, name: &[u8], number: u64) -> Result<(), Memory>
    ensures { OnOk result (text.new ≡ text.old ++ spec.line name.now number) }
{
    text.push(name)?;
    text.push(b" ")?;
    text.push_decimal(number)?;
    text.push(b"\n")
}

/// Adds the lines that tell what a log came to.
fn push_log(text: &mut Text, summary: &Summary) -> Result<(), Memory>
    ensures { OnOk result (text.new ≡ text.old ++ spec.log_lines summary.now) }
{
    push_line(text, b"entries", summary.entries)?;
    push_line(text, b"orders", summary.orders)?;
    push_line(text, b"cents", summary.cents)
}

/// The lines that tell how the requests went, what the book came to, and how many approvals no order has.
pub(crate) fn summary_lines(
    alloc: Global,
    tally: &Tally,
    summary: &Summary,
    unused: u64,
) -> Result<Text, Memory>
    ensures { IfOk result (λ text. text ≡ spec.summary_lines tally.now summary.now unused) }
{
    let mut text = Text::with_capacity(alloc, ROOM)?;
    push_line(&mut text, b"requests", tally.requests)?;
    push_line(&mut text, b"pages", tally.pages)?;
    push_line(&mut text, b"refused", tally.refused)?;
    push_log(&mut text, summary)?;
    push_line(&mut text, b"authorised only", unused)?;
    Ok(text)
}

/// Adds the line that tells how many entries a caller has.
fn push_caller(text: &mut Text, book: &Book, caller: u32) -> Result<(), Memory>
    ensures { OnOk result (text.new ≡ text.old ++ spec.caller_line book.now caller) }
{
    text.push(b"caller ")?;
    text.push_decimal(u64::from(caller))?;
    text.push(b" ")?;
    text.push_decimal(book.count_of(caller))?;
    text.push(b"\n")
}

/// The lines that tell what the book came to, and how many entries each of the callers has.
pub fn race_lines(alloc: Global, book: &Book, callers: u32) -> Result<Text, Memory>
    ensures { IfOk result (λ text. text ≡ spec.race_lines callers book.now) }
{
    let mut text = Text::with_capacity(alloc, ROOM)?;
    push_log(&mut text, &book.summary())?;
    for before in 0..callers {
        push_caller(&mut text, book, before + 1)?;
    }
    Ok(text)
}
