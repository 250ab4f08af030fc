//! A list of integers: the weights of a reward, or one row of a table.

ghost use Rattle.std.specs.Prelude.{◌≡◌, ◌<◌, [], ◌∷◌, ◌++◌, length, slice_index_or, pos, OnOk, OnErr};

use crate::OutOfMemory;
use std::alloc::Global;
use std::marker::Model;

/// A list of integers of 32 bits: the weights of a reward, or one row of its table.
#[derive(Debug, Drop)]
pub struct Numbers {
    items: Vec<i32>,
}

impl Model for Numbers {
    ghost use Rattle.std.specs.Prelude.{ℤ, List};

    ghost Value = { List ℤ };

    ghost view = { λ numbers. numbers.items.items };
}

impl Numbers {
    /// Returns the list of no number. It keeps the allocator, and does not allocate yet.
    pub fn new(alloc: Global) -> Numbers
        ensures { result ≡ [] }
    {
        Numbers {
            items: Vec::new(alloc),
        }
    }

    /// Puts a number at the end of the list.
    ///
    /// # Errors
    ///
    /// [`OutOfMemory`] if an allocation fails. The list then stays as it was.
    pub fn push(&mut self, v: i32) -> Result<(), OutOfMemory>
        ensures pushed { OnOk result (self.new ≡ self.old ++ v ∷ []) }
        ensures same { OnErr result (self.new ≡ self.old) }
    {
        self.items.push(v)?;
        Ok(())
    }

    // How many numbers there are.
    pub(crate) fn len(&self) -> usize
        ensures { result ≡ length self.now }
    {
        self.items.len()
    }

    // The number at place `i`; places are counted from 0.
    pub(crate) fn get(&self, i: usize) -> i32
        requires { i < length self.now }
        ensures { result ≡ slice_index_or self.now i (pos 0) }
    {
        self.items[i]
    }
}
