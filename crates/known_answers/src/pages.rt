//! A page with each kind of block.
use crate::answers::{heading, made};
use crate::listing::list;
use crate::stop::Stop;
use shop_model::{Block, Field, Page};
use shop_pages::{page_bytes, push_page};
use shop_text::{Listed, Memory, Text};
use std::alloc::Global;

pub fn print(rt: &(impl Print + AllocGlobal)) -> Result<(), Stop> {
    heading(rt, "each block as html")?;
    print_page(rt, &page(rt.alloc())?)
}

fn print_page(rt: &(impl Print + AllocGlobal), page: &Page) -> Result<(), Stop> {
    made(rt, page_bytes(rt.alloc(), page))?;
    made(rt, page_behind_a_head(rt.alloc(), page))
}

fn page_behind_a_head(alloc: Global, page: &Page) -> Result<Text, Memory> {
    let mut reply = text(alloc, "head\n")?;
    push_page(&mut reply, page)?;
    Ok(reply)
}

pub fn text(alloc: Global, bytes: &str) -> Result<Text, Memory> {
    Text::copy(alloc, bytes.as_bytes())
}

fn row(alloc: Global, cells: &[&str]) -> Result<Listed<Text>, Memory> {
    let mut row = Listed::new(alloc);
    for cell in cells {
        row.push(text(alloc, cell)?)?;
    }
    Ok(row)
}

fn field(alloc: Global, name: &str, value: &str) -> Result<Field, Memory> {
    Ok(Field {
        name: text(alloc, name)?,
        value: text(alloc, value)?,
    })
}

fn link(alloc: Global) -> Result<Block, Memory> {
    Ok(Block::Link {
        target: text(alloc, "/p?item=1&c=2")?,
        label: text(alloc, "L")?,
    })
}

fn picture(alloc: Global) -> Result<Block, Memory> {
    Ok(Block::Picture {
        target: text(alloc, "/i.gif")?,
        label: text(alloc, "\"P\"")?,
    })
}

fn table(alloc: Global) -> Result<Block, Memory> {
    let rows = [row(alloc, &["1", "<2>"]), row(alloc, &["3"])];
    Ok(Block::Table(list(alloc, rows)?))
}

fn form(alloc: Global) -> Result<Block, Memory> {
    let target = text(alloc, "/f?a&b")?;
    let fields = [field(alloc, "q\"", "<v>"), field(alloc, "e", "")];
    Ok(Block::Form {
        target,
        fields: list(alloc, fields)?,
    })
}

fn blocks(alloc: Global) -> Result<Listed<Block>, Memory> {
    let blocks = [
        text(alloc, "a<b").map(Block::Heading),
        text(alloc, "say \"x>y\"").map(Block::Para),
        link(alloc),
        picture(alloc),
        table(alloc),
        form(alloc),
    ];
    list(alloc, blocks)
}

fn page(alloc: Global) -> Result<Page, Memory> {
    Ok(Page {
        status: 200,
        title: text(alloc, "T&T")?,
        blocks: blocks(alloc)?,
    })
}
