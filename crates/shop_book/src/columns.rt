//! A column of versions: a number for each row of one table.
ghost use Rattle.std.specs.Prelude.{◌≡◌, ℕ, ◌+◌, ◌-◌, ◌≤◌, length, slice_set, IfOk};
ghost use Rattle.std.specs.Bool.{OnTrue};
ghost use Rattle.shop_model.specs.rows.Sound.{Has};
ghost use Rattle.shop_book.specs.Columns as spec;

use shop_model::row_numbered;
use shop_text::Memory;
use std::alloc::Global;
use std::marker::Model;

/// Numbers by ids, which are counted from 1.
#[derive(Drop)]
pub(crate) struct Column {
    numbers: Vec<u64>,
}

impl Model for Column {
    ghost use Rattle.std.specs.Prelude.{ℕ, List};

    ghost Value = { List ℕ };

    ghost view = { λ c. c.numbers.items };
}

impl Column {
    /// As many zeros.
    pub(crate) fn zeros(alloc: Global, count: usize) -> Result<Column, Memory>
        ensures long { IfOk result (λ column. length column ≡ count) }
        ensures none { IfOk result (λ column. (id : ℕ) → spec.at column id ≡ 0) }
    {
        Ok(Column {
            numbers: vec![in alloc; 0u64; count]?,
        })
    }

    /// The number at an id, or 0.
    pub(crate) fn at(&self, id: u32) -> u64
        ensures { result ≡ spec.at self.now id }
    {
        match row_numbered(&self.numbers, id) {
            Some(number) => *number,
            None => 0,
        }
    }

    /// Sets the number at an id.
    pub(crate) fn set(&mut self, id: u32, number: u64)
        requires { Has (length self.old) id }
        ensures { self.new ≡ slice_set self.old (id - 1) number }
    {
        self.numbers[id as usize - 1] = number;
    }

    /// Zeros behind the numbers, until each of so many rows and of so many more has one; answers
    /// whether it has.
    pub(crate) fn grow(&mut self, rows: usize, more: usize) -> bool
        ensures long { OnTrue result (rows + more ≤ length self.new) }
        ensures longer { length self.old ≤ length self.new }
        ensures same { (id : ℕ) → spec.at self.new id ≡ spec.at self.old id }
    {
        let count = rows.saturating_add(more);
        while self.numbers.len() < count {
            if self.numbers.push(0).is_err() {
                return false;
            }
        }
        true
    }
}
