//! The tables of an index event.

ghost use Rattle.std.specs.Prelude.{◌≡◌, ◌<◌, ◌≤◌, ◌∷◌, [], ◌++◌, length, slice_index_or, IfOk, OnOk, OnErr};

use crate::OutOfMemory;
use crate::rows::Row;
use psi_index::IndexTable;
use std::alloc::Global;
use std::marker::Model;
use std::mem;

/// One table for each queue of a list: what the index of the queue is where it holds 0, 1, 2, .. customers.
///
/// It is seen as the list of these lists of numbers of 32 bits.
#[derive(Drop, Debug)]
pub struct Tables {
    rows: Vec<Row>,
}

impl Model for Tables {
    ghost use Rattle.std.specs.Prelude.{ℕ, List, map};

    ghost Value = { List (List ℕ) };

    ghost use Rattle.psi_kinds.specs.Rows.{row_of};

    ghost view = { λ t. map row_of t.rows.items };
}

impl Tables {
    ghost use Rattle.psi_kinds.specs.Rows.{row_of};

    /// No table.
    pub fn new(alloc: Global) -> Tables
        ensures { result ≡ [] }
    {
        Tables {
            rows: Vec::new(alloc),
        }
    }

    /// Puts a table at the end of the list. Its least and greatest values aren't at hand: [`Tables::index_all`] makes them so.
    ///
    /// # Errors
    ///
    /// [`OutOfMemory`] if an allocation fails. The list then stays as it was, and the
    /// table is dropped.
    pub fn push(&mut self, row: Vec<u32>) -> Result<(), OutOfMemory>
        ensures pushed { OnOk result (self.new ≡ self.old ++ row.items ∷ []) }
        ensures refused { OnErr result (self.new ≡ self.old) }
    {
        self.rows.push(Row::Plain(row))?;
        Ok(())
    }

    /// Returns the number of tables in the list.
    pub fn len(&self) -> usize
        ensures { result ≡ length self.now }
    {
        self.rows.len()
    }

    /// Returns the values of table `i`; tables are counted from 0.
    pub fn row(&self, i: usize) -> &[u32]
        requires { i < length self.now }
        ensures { result.now ≡ slice_index_or self.now i [] }
    {
        self.at(i).values()
    }

    /// Puts the least and greatest values of the tables of 1 to 65,535 values at hand; the tables stay the same.
    ///
    /// # Errors
    ///
    /// [`OutOfMemory`] if an allocation fails. There may then be other tables.
    pub fn index_all(&mut self, alloc: Global) -> Result<(), OutOfMemory>
        ensures { OnOk result (self.new ≡ self.old) }
    {
        let mut rows = Vec::with_capacity(alloc, self.rows.len())?;
        for row in mem::replace(&mut self.rows, Vec::new(alloc)) {
            rows.push(row.indexed(alloc)?)?;
        }
        self.rows = rows;
        Ok(())
    }

    /// Returns a copy of the tables. Those whose least and greatest values are at hand are shared; the values of the
    /// others are copied.
    ///
    /// # Errors
    ///
    /// [`OutOfMemory`] if an allocation fails.
    pub fn share(&self, alloc: Global) -> Result<Tables, OutOfMemory>
        ensures { IfOk result (λ tables. tables ≡ self.now) }
    {
        let mut rows = Vec::with_capacity(alloc, self.rows.len())?;
        for i in 0..self.len() {
            rows.push(self.at(i).share(alloc)?)?;
        }
        Ok(Tables { rows })
    }

    // The values of table `i` as an index table; tables are counted from 0.
    pub(crate) fn index(&self, alloc: Global, i: usize) -> Result<IndexTable, OutOfMemory>
        requires within { i < length self.now }
        requires some { 1 ≤ length (slice_index_or self.now i []) }
        requires few { length (slice_index_or self.now i []) ≤ 65535 }
        ensures { IfOk result (λ table. table ≡ slice_index_or self.now i []) }
    {
        self.at(i).index(alloc)
    }

    // Table `i`; tables are counted from 0.
    fn at(&self, i: usize) -> &Row
        requires { i < length self.now }
        ensures { row_of result.now ≡ slice_index_or self.now i [] }
    {
        &self.rows[i]
    }
}
