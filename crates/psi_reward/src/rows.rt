//! A list of rows: the table of a reward.

ghost use Rattle.std.specs.Prelude.{◌≡◌, ◌<◌, [], ◌∷◌, ◌++◌, length, slice_index_or, OnOk, OnErr};

use crate::OutOfMemory;
use crate::integers::Numbers;
use std::alloc::Global;
use std::marker::Model;

/// A list of rows of integers: the table of a reward, with one row for each queue.
#[derive(Debug, Drop)]
pub struct Grid {
    rows: Vec<Numbers>,
}

impl Model for Grid {
    ghost use Rattle.std.specs.Prelude.{ℤ, List};

    ghost Value = { List (List ℤ) };

    ghost view = { λ grid. grid.rows.items };
}

impl Grid {
    /// Returns the list of no row. It keeps the allocator, and does not allocate yet.
    pub fn new(alloc: Global) -> Grid
        ensures { result ≡ [] }
    {
        Grid {
            rows: Vec::new(alloc),
        }
    }

    /// Puts a row at the end of the list.
    ///
    /// # Errors
    ///
    /// [`OutOfMemory`] if an allocation fails. The list then stays as it was, and the
    /// row is dropped.
    pub fn push(&mut self, row: Numbers) -> Result<(), OutOfMemory>
        ensures pushed { OnOk result (self.new ≡ self.old ++ row ∷ []) }
        ensures same { OnErr result (self.new ≡ self.old) }
    {
        self.rows.push(row)?;
        Ok(())
    }

    // How many rows there are.
    pub(crate) fn len(&self) -> usize
        ensures { result ≡ length self.now }
    {
        self.rows.len()
    }

    // The row at place `i`; places are counted from 0.
    pub(crate) fn get(&self, i: usize) -> &Numbers
        requires { i < length self.now }
        ensures { result.now ≡ slice_index_or self.now i [] }
    {
        &self.rows[i]
    }
}
