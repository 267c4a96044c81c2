//! What pages link to, read from their texts.
use crate::answers::{answer, heading, text_of};
use crate::stop::Stop;
use shop_pages::{Links, read_links};
use shop_text::{Memory, Text};
use std::alloc::Global;

/// The page of item 1.
const ITEM: &[u8] = b"<html><head><title>Product Detail</title></head><body>
<h1>Kind Harbour OG</h1>
<p>By Ben Grant</p>
<p>Subject NON-FICTION, published 1994-03-13 by Larch Press</p>
<p>About a Magic Journey.</p>
<img src=\"/img/image_1.gif\" alt=\"Kind Harbour OG\">
<p>AUDIO, 5270 pages</p>
<p>List 53.11, our price 41.42, in stock 18</p>
<a href=\"/shopping_cart?item=1\">Add to cart</a>
<a href=\"/home\">Home</a>
<a href=\"/search_request\">Search</a>
<a href=\"/shopping_cart\">Cart</a>
</body></html>
";

/// Bodies of pages, and of none.
const BODIES: [&str; 14] = [
    "",
    "<a href=\"/p?item=1&amp;c=2\">L</a>\n",
    "<a href=\"&lt;&quot;&gt;\n\r\0\">\n</a>\n<a href=\"\"></a>\n",
    "<form action=\"/f\"><input name=\"a\" value=\"/b\"></form>\n",
    "<table><tr><td>/a</td><td></td></tr><tr></tr></table>\n<img src=\"/i\" alt=\"\">\n",
    "<h1>a\n</h1>\n<table></table>\n<form action=\"\"></form>\n",
    "<p>a>b</p>\n",
    "<p>a&b</p>\n",
    "<p>a&#38;</p>\n",
    "<a href=\"/a\" >b</a>\n",
    "<a href=\"/a\">b</a>",
    "<a href=\"/a\">b</a>\n\n",
    "<table><td>x</td></table>\n",
    "<a href=\"/a\">b</a>\n</body></html>\n",
];

pub fn print(rt: &(impl Print + AllocGlobal)) -> Result<(), Stop> {
    heading(rt, "links are read from a page's text, and from no other")?;
    print_links(rt, "item 1", ITEM)?;
    print_links(rt, "<html>", b"<html>")?;
    for body in BODIES {
        print_body(rt, body)?;
    }
    Ok(())
}

/// Prints what a page with this body links to.
fn print_body(rt: &(impl Print + AllocGlobal), body: &str) -> Result<(), Stop> {
    print_links(rt, body, page(rt.alloc(), body)?.bytes())
}

/// The text of a page with this body.
pub fn page(alloc: Global, body: &str) -> Result<Text, Memory> {
    let mut text = Text::copy(alloc, b"<html><head><title>T</title></head><body>\n")?;
    text.push(body.as_bytes())?;
    text.push(b"</body></html>\n")?;
    Ok(text)
}

fn print_links(rt: &(impl Print + AllocGlobal), what: &str, bytes: &[u8]) -> Result<(), Stop> {
    match read_links(rt.alloc(), bytes) {
        Links::Found(targets) => print_targets(rt, what, targets.as_slice()),
        Links::NotAPage => answer(rt, &what, &"no page"),
        Links::Memory => Err(Stop::Memory),
    }
}

/// Prints how many targets there are, and each.
fn print_targets(rt: &impl Print, what: &str, targets: &[Text]) -> Result<(), Stop> {
    answer(rt, &what, &targets.len())?;
    for target in targets {
        answer(rt, &"to", &text_of(target.bytes()))?;
    }
    Ok(())
}
