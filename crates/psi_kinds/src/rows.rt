//! One table of an index event.

ghost use Rattle.std.specs.Prelude.{◌≡◌, ◌≤◌, length, IfOk};
ghost use Rattle.psi_kinds.specs.Rows.{row_of};

use crate::OutOfMemory;
use psi_index::IndexTable;
use std::alloc::Global;

// The values of one table: of as many as an index table takes, they may be kept as one, which can be shared.
#[derive(Drop, Debug)]
pub(crate) enum Row {
    // Any values.
    Plain(Vec<u32>),
    // 1 to 65,535 values.
    Indexed(IndexTable),
}

impl Row {
    // The table of these values.
    fn of(alloc: Global, values: Vec<u32>) -> Result<Row, OutOfMemory>
        ensures { IfOk result (λ row. row_of row ≡ values.items) }
    {
        if values.is_empty() || values.len() > 65_535 {
            Ok(Row::Plain(values))
        } else {
            Ok(Row::Indexed(IndexTable::new(alloc, values)?))
        }
    }

    // The same table, as an index table where it has as many values as one takes.
    pub(crate) fn indexed(self, alloc: Global) -> Result<Row, OutOfMemory>
        ensures { IfOk result (λ row. row_of row ≡ row_of self) }
    {
        match self {
            Row::Plain(values) => Row::of(alloc, values),
            Row::Indexed(table) => Ok(Row::Indexed(table)),
        }
    }

    // The values in their order.
    pub(crate) fn values(&self) -> &[u32]
        ensures { result.now ≡ row_of self.now }
    {
        match self {
            Row::Plain(values) => values.as_slice(),
            Row::Indexed(table) => table.values(),
        }
    }

    // Shares an index table, and copies plain values.
    pub(crate) fn share(&self, alloc: Global) -> Result<Row, OutOfMemory>
        ensures { IfOk result (λ row. row_of row ≡ row_of self.now) }
    {
        match self {
            Row::Plain(values) => Ok(Row::Plain(Vec::from_slice(alloc, values.as_slice())?)),
            Row::Indexed(table) => Ok(Row::Indexed(table.share()?)),
        }
    }

    // The values as an index table.
    pub(crate) fn index(&self, alloc: Global) -> Result<IndexTable, OutOfMemory>
        requires some { 1 ≤ length (row_of self.now) }
        requires few { length (row_of self.now) ≤ 65535 }
        ensures { IfOk result (λ table. table ≡ row_of self.now) }
    {
        match self {
            Row::Plain(values) => {
                let values = Vec::from_slice(alloc, values.as_slice())?;
                IndexTable::new(alloc, values)
            }
            Row::Indexed(table) => table.share(),
        }
    }
}
