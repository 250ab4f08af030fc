//! The keys of all targets, one after another.

ghost use Rattle.std.specs.Prelude.{◌≡◌, ℕ, ◌+◌, ◌<◌, ◌≤◌, length, slice_index, true, IfOk, IfSome, OnOk};
ghost use Rattle.psi_route.specs.Route.{shape_of};
ghost use Rattle.psi_follow_keyed.specs.RowsKept.{AreRowsOf, IsRowFrom};
ghost use Rattle.psi_follow_keyed.specs.Keys.{key_by};

use psi_event::EventLaw;
use psi_route::Route;
use std::alloc::{AllocError, Global};

// The greatest value of a table that leaves room for a place below it in 32 bits, and for a number above all keys.
const MOST: u32 = 134_217_726;

/// The keys of all targets by their numbers of customers, target after target, and where those of each begin.
#[derive(Drop)]
pub(crate) struct Rows {
    bases: [usize; 32],
    entries: Vec<u32>,
}

impl Rows {
    /// Returns the keys of a route's targets; `None` where a value of a table is above 2^27 - 2.
    pub fn of(alloc: Global, route: &Route) -> Result<Option<Rows>, AllocError>
        requires { let s = shape_of route.now in 0 < length s.tables }
        ensures { let s = shape_of route.now in IfOk result (λ found. IfSome found (λ rows. AreRowsOf s (length s.targets) rows.bases rows.entries.items)) }
    {
        let mut bases = [0; 32];
        let mut entries = Vec::new(alloc);
        for place in 0..route.targets().len() {
            bases[place as usize] = entries.len();
            if !push_row(&mut entries, route, place)? {
                return Ok(None);
            }
        }
        Ok(Some(Rows { bases, entries }))
    }

    /// Returns the key of the target at a place where it holds `held` customers.
    #[inline]
    pub fn at(&self, place: u8, held: u16) -> u32
        requires place { place < 32 }
        requires held { slice_index self.now.bases place + held < length self.now.entries.items }
        ensures { result ≡ key_by self.now.bases self.now.entries.items place held }
    {
        self.entries[self.bases[place as usize] + held as usize]
    }
}

// Puts the keys of the target at a place after the others; false where a value of its table is too great.
fn push_row(entries: &mut Vec<u32>, route: &Route, place: u8) -> Result<bool, AllocError>
    requires tables { let s = shape_of route.now in 0 < length s.tables }
    requires place { let s = shape_of route.now in place < length s.targets }
    ensures row { IfOk result (λ fits. fits ≡ true → IsRowFrom (shape_of route.now) place (length entries.old.items) entries.new.items) }
    ensures before { IfOk result (λ fits. (i : ℕ) → i < length entries.old.items → slice_index entries.new.items i ≡ slice_index entries.old.items i) }
{
    let cap = route.caps().get(route.targets().get(place));
    for held in 0..cap {
        let weight = route.weight(place, held);
        if weight > MOST {
            return Ok(false);
        }
        entries.push(32 * weight + place as u32)?;
    }
    entries.push(u32::MAX)?;
    Ok(true)
}
