//! A file of a shelf in memory.

ghost use Rattle.std.specs.Prelude.{◌≡◌, ◌+◌, ◌<◌, ◌≤◌, ◌^◌, ◌++◌, take, string_bytes, IfOk, OnOk, IfErr};
ghost use Rattle.psi_io.specs.MemoryShelf.{has_name, with_bytes, with_fault};

use crate::consumer::Consumer;
use crate::noted::Noted;
use crate::shelf::ShelfFault;
use std::marker::Model;

/// A file of a shelf in memory: its name, its bytes, and the count of its failed reads.
#[derive(Drop)]
pub(crate) struct MemoryFile {
    name: String,
    bytes: Vec<u8>,
    count: u64,
}

impl Model for MemoryFile {
    ghost use Rattle.std.specs.Prelude.{string_bytes};
    ghost use Rattle.psi_io.specs.MemoryShelf.{ShelfFile};

    ghost Value = { ShelfFile };

    ghost view = { λ file. record {
      name = string_bytes file.name;
      bytes = file.bytes.items;
      count = file.count;
    } };
}

impl MemoryFile {
    pub(crate) fn new(name: String, bytes: Vec<u8>, count: u64) -> MemoryFile
        ensures name { result.name ≡ string_bytes name }
        ensures bytes { result.bytes ≡ bytes.items }
        ensures count { result.count ≡ count }
    {
        MemoryFile { name, bytes, count }
    }

    pub(crate) fn has_name(&self, name: &str) -> bool
        ensures { result ≡ has_name name.now self.now }
    {
        self.name.as_str() == name
    }

    pub(crate) fn replace(&mut self, bytes: Vec<u8>)
        ensures { self.new ≡ with_bytes bytes.items self.old }
    {
        self.bytes = bytes;
    }

    pub(crate) fn count_fault(&mut self)
        ensures after { self.new ≡ with_fault self.old }
        ensures bounded { self.old.count < 2 ^ 64 }
    {
        self.count = self.count.saturating_add(1);
    }

    /// Hands the bytes of the file, but at most `most + 1` of them, to a consumer.
    pub(crate) fn feed<C: Consumer>(&self, most: u32, to: &mut C) -> Result<Noted, ShelfFault>
        requires { most ≤ 2 ^ 30 }
        ensures noted { IfOk result (λ noted. noted.bytes ≡ take (most + 1) self.now.bytes) }
        ensures bytes { OnOk result (C.taken to.new ≡ C.taken to.old ++ take (most + 1) self.now.bytes) }
        ensures setting { C.setting to.new ≡ C.setting to.old }
        ensures memory { IfErr result (λ fault. fault ≡ ShelfFault.OutOfMemory) }
    {
        let count = self.bytes.len().min(most as usize + 1);
        let bytes = self.bytes.as_slice();
        let piece = &bytes[..count];
        to.take(piece)?;
        Ok(Noted::new().and(piece))
    }
}
