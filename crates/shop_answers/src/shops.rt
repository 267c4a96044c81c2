//! Shops of caller 1 at the desk with seed 0, and what is served there. What owns a shop is made last or stands
//! behind a pointer, so that few exits have one to let go.
ghost use Rattle.std.specs.Arc.{arc_value};
ghost use Rattle.std.specs.Prelude.{◌≡◌, ◌≤◌, IfOk, length};
ghost use Rattle.shop_model.specs.lists.Catalogues.{opened};
ghost use Rattle.shop_book.specs.Openings.{most_entries};
ghost use Rattle.shop_answers.specs.Desks.{IsDesk};

use crate::twins::with_twins;
use shop_app::first_worker;
use shop_book::{Book, Solo};
use shop_edges::{BytesIn, BytesOut, Gateway, ListClock};
use shop_engine::{Report, Worker, serve_connection};
use shop_gateway::{Emulator, ScriptGateway};
use shop_model::{Scale, Tables};
use shop_populate::populate;
use shop_search::Index;
use shop_text::{Listed, Memory, Text};
use shop_words::Session;
use std::alloc::Global;
use std::boxed::Box;
use std::sync::Arc;

/// What a connection finds at the desk.
#[derive(Clone, Copy)]
pub struct Setting {
    pub readings: [u64; 4],
    /// The log may have so many changes.
    pub limit: u8,
    /// Which call of the gateway fails, counted from 1; none does where it is 0.
    pub fails: u64,
    /// Whether address 2 says what address 1 does.
    pub twins: bool,
}

/// The tables of the desk with seed 0.
#[tactic(auto, using(shop_model::proofs::cited::Populated::items_populated))]
fn desk(alloc: Global) -> Result<Tables, Memory>
    ensures { IfOk result IsDesk }
{
    populate(alloc, 0, &Scale::desk())
}

/// The desk's tables, or those in which two addresses say the same.
fn tables_for(alloc: Global, twins: bool) -> Result<Tables, Memory>
    ensures { IfOk result IsDesk }
{
    let tables = desk(alloc)?;
    if twins {
        return with_twins(alloc, tables);
    }
    Ok(tables)
}

#[tactic(auto, using(shop_model::proofs::cited::Opened::opened_all))]
fn index_of(alloc: Global, tables: &Tables) -> Result<Arc<Index, Global>, Memory>
    requires { tables.now.born_items ≡ length tables.now.items }
    ensures { IfOk result (λ index. arc_value index ≡ opened tables.now) }
{
    let index = Index::build(alloc, tables)?;
    Ok(Arc::new(alloc, index)?)
}

/// A worker of caller 1, who has a shop with these tables alone, and whose log may have so many
/// changes.
fn worker_over(alloc: Global, tables: Tables, limit: u64) -> Result<Worker<Solo>, Memory>
    requires tables { IsDesk tables }
    requires limit { limit ≤ most_entries }
{
    let index = index_of(alloc, &tables)?;
    let book = Book::open(alloc, tables, limit)?;
    Worker::new(alloc, Solo::new(book), 1, 0, Scale::desk(), index)
}

/// A worker of the desk's shop, whose log may have so many changes. Two addresses there may say the same.
pub fn worker_at(alloc: Global, limit: u8, twins: bool) -> Result<Worker<Solo>, Memory> {
    let tables = tables_for(alloc, twins)?;
    worker_over(alloc, tables, u64::from(limit))
}

/// The first of these, behind a pointer.
pub fn worker(alloc: Global, limit: u8) -> Result<Box<Worker<Solo>>, Memory> {
    let worker = worker_at(alloc, limit, false)?;
    Ok(Box::new(alloc, worker)?)
}

/// A worker of a shop of this scale. Its callers need none of what is promised of it.
pub fn worker_of(alloc: Global, scale: Scale) -> Result<Worker<Solo>, Memory> {
    let session = Session {
        scale,
        seed: 0,
        limit: 1_000_000,
    };
    first_worker(alloc, session)
}

/// A book without a change.
pub fn unchanged(alloc: Global) -> Result<Box<Book>, Memory> {
    let tables = desk(alloc)?;
    let book = Book::open(alloc, tables, 1)?;
    Ok(Box::new(alloc, book)?)
}

/// The book of a worker's shop.
pub fn book_of(alloc: Global, worker: Worker<Solo>) -> Result<Box<Book>, Memory> {
    Ok(Box::new(alloc, worker.into_store().into_book())?)
}

pub fn clock(alloc: Global, readings: [u64; 4]) -> Result<ListClock, Memory> {
    let readings = Vec::from_slice(alloc, &readings)?;
    ListClock::new(alloc, Listed::from_vec(readings))
}

/// Serves a connection. Its callers need none of what is promised of it.
pub fn serve_streams<G: Gateway>(
    alloc: Global,
    worker: &mut Worker<Solo>,
    source: &mut BytesIn,
    sink: &mut BytesOut,
    clock: &mut ListClock,
    gateway: &mut G,
) -> Report {
    serve_connection(alloc, worker, source, sink, clock, gateway)
}

/// At most so many bytes come with a read and go with a write.
#[derive(Clone, Copy)]
pub struct Pieces {
    pub read: usize,
    pub write: usize,
}

/// Reads that part what belongs together, and writes that take a part of a reply.
pub const SMALL: Pieces = Pieces {
    read: 7,
    write: 1_000,
};

/// Serves input that is cut into such pieces, as is what is written.
pub fn serve_input<G: Gateway>(
    alloc: Global,
    worker: &mut Worker<Solo>,
    input: Text,
    pieces: Pieces,
    clock: &mut ListClock,
    gateway: &mut G,
) -> Report {
    let mut source = BytesIn::new(input, pieces.read.max(1), Listed::new(alloc));
    let mut sink = BytesOut::new(alloc, pieces.write, Listed::new(alloc));
    serve_streams(alloc, worker, &mut source, &mut sink, clock, gateway)
}

/// What came of a connection, and the shop behind it.
#[derive(Drop)]
pub struct Outcome {
    pub report: Report,
    pub book: Box<Book>,
    pub gateway: Box<ScriptGateway<Emulator>>,
}

fn gateway(alloc: Global, fails: u64) -> Result<Box<ScriptGateway<Emulator>>, Memory> {
    let fails = Listed::from_vec(vec![in alloc; fails; 1]?);
    Ok(Box::new(alloc, ScriptGateway::new(Emulator::new(alloc), fails))?)
}

/// The report of a connection, and the book behind it.
fn served(
    alloc: Global,
    input: Text,
    setting: Setting,
    clock: &mut ListClock,
    gateway: &mut ScriptGateway<Emulator>,
) -> Result<(Report, Box<Book>), Memory> {
    let mut worker = worker_at(alloc, setting.limit, setting.twins)?;
    let report = serve_input(alloc, &mut worker, input, SMALL, clock, gateway);
    let book = book_of(alloc, worker)?;
    Ok((report, book))
}

/// What comes of a connection with this clock.
fn outcome_at(
    alloc: Global,
    input: Text,
    setting: Setting,
    clock: &mut ListClock,
) -> Result<Outcome, Memory> {
    let mut gateway = gateway(alloc, setting.fails)?;
    let (report, book) = served(alloc, input, setting, clock, &mut gateway)?;
    Ok(Outcome {
        report,
        book,
        gateway,
    })
}

/// What comes of a connection at the desk's shop.
pub fn outcome_of(alloc: Global, input: Text, setting: Setting) -> Result<Outcome, Memory> {
    let mut clock = clock(alloc, setting.readings)?;
    outcome_at(alloc, input, setting, &mut clock)
}
