//! The names of the queues that the rest of a file may refer to.

ghost use Rattle.std.specs.Prelude.{◌≡◌, ◌≤◌, length};

use crate::digests::{fingerprints, slots_of};
use indexmap::IndexSet;
use psi_net_model::Name;

/// The names of the queues of a file. Queues are numbered from 0 in the file's order.
#[derive(Drop)]
pub struct KnownNames {
    /// The names in the order of the queues, at most 32.
    pub list: IndexSet<Name>,
    // The fingerprints of the names: a look-up by them is faster.
    pub(crate) fingerprints: [u64; 32],
    // Which name is looked at first, by the slot of a text's fingerprint.
    pub(crate) slots: [u8; 256],
    ghost few: { length list.keys ≤ 32 },
}

impl KnownNames {
    /// Returns the names of these queues.
    pub fn new(list: IndexSet<Name>) -> KnownNames
        requires { length list.keys ≤ 32 }
        ensures { result.list ≡ list }
    {
        let fingerprints = fingerprints(&list);
        let slots = slots_of(&fingerprints);
        KnownNames {
            list,
            fingerprints,
            slots,
        }
    }
}
