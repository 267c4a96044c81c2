ghost use Rattle.std.specs.Prelude.{◌≡◌, [], ◌+◌, ◌≤◌, length, All};
ghost use Rattle.std.specs.Vec.{vec_len, vec_capacity};
ghost use Rattle.shop_turn.specs.Desks.{IsOneShop};
ghost use Rattle.shop_tasks.specs.Tasks as spec;

use crate::Task;
use shop_book::Book;
use shop_edges::{Clock, Spawner, Start, Ticket};
use shop_text::Memory;
use shop_turn::{Desk, Shop};
use std::alloc::Global;
use std::sync::Wait;
use std::thread::Threads;

/// What came of tasks.
#[derive(Drop)]
pub enum Ran {
    /// All were done, and this is the book of their shop.
    Done(Book),
    /// One could not be started, and this is the book of their shop.
    NotStarted(Book),
    /// Memory ran out.
    Memory,
}

/// Starts the tasks in order, and tells whether all were started. One that is not is dropped with its desk, and so
/// are those behind it.
fn start_all<R: Threads + Wait + Drop + Send + 'static, C: Clock + Drop + Send + 'static>(
    rt: &R,
    spawner: &mut Spawner,
    tasks: Vec<Task<R, C>>,
    tickets: &mut Vec<Ticket<Task<R, C>>>,
) -> bool
    requires none { tickets.old.items ≡ [] }
    requires room { vec_len tickets.old + length tasks.items ≤ vec_capacity tickets.old }
    ensures { spec.Starts C.readings tasks.items tickets.new.items result spawner.old spawner.new }
{
    for task in tasks {
        match spawner.start(rt, task) {
            Start::Started(ticket) => tickets.push_reserved(ticket),
            Start::Failed => return false,
        }
    }
    true
}

/// Joins the tasks in order, takes their desks, and tells whether memory ran out in none of them.
fn join_all<R: Threads + Wait + Drop + Send + 'static, C: Clock + Drop + Send + 'static>(
    rt: &R,
    tickets: Vec<Ticket<Task<R, C>>>,
    desks: &mut Vec<Desk<R>>,
) -> bool
    requires none { desks.old.items ≡ [] }
    requires room { vec_len desks.old + length tickets.items ≤ vec_capacity desks.old }
    ensures { spec.Joins C.readings tickets.items desks.new.items result }
{
    let mut all = true;
    for ticket in tickets {
        match ticket.join(rt) {
            Ok(raced) => desks.push_reserved(raced.desk),
            Err(Memory) => all = false,
        }
    }
    all
}

/// What came of tasks, by whether all were started, and memory ran out in none of them.
fn ended(started: bool, driven: bool, book: Book) -> Ran
    ensures { result ≡ spec.ended started driven book }
{
    if !started {
        return Ran::NotStarted(book);
    }
    if !driven {
        return Ran::Memory;
    }
    Ran::Done(book)
}

/// Runs the tasks side by side, each started as the spawner does it, waits for those that were started, and closes
/// their shop with a desk that is nobody's.
pub fn race<R: Threads + Wait + Drop + Send + 'static, C: Clock + Drop + Send + 'static>(
    rt: &R,
    alloc: Global,
    spawner: &mut Spawner,
    own: Desk<R>,
    tasks: Vec<Task<R, C>>,
) -> Ran
    requires { All (λ task. IsOneShop own task.desk) tasks.items }
    ensures { spec.RanAs C.readings own tasks.items spawner.old spawner.new result }
{
    let count = tasks.len();
    let Ok(mut tickets) = Vec::with_capacity(alloc, count) else {
        return Ran::Memory;
    };
    let Ok(mut desks) = Vec::with_capacity(alloc, count) else {
        return Ran::Memory;
    };
    let started = start_all(rt, spawner, tasks, &mut tickets);
    let driven = join_all(rt, tickets, &mut desks);
    ended(started, driven, Shop::close(own, desks))
}
