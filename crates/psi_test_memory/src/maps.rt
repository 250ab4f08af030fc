//! Maps of all states.

ghost use Rattle.std.specs.Prelude.{◌≡◌};
ghost use Rattle.psi_net_model.specs.Network.{caps_of};

use psi_event::Idle;
use psi_exact::{MapTable, survey};
use psi_kinds::Event;
use psi_net::Net;
use psi_past::SeedPast;
use psi_rate::System;
use std::alloc::Global;

/// Makes the table of a map, and calls it or not; `None` where memory is wanting.
pub(crate) fn make(alloc: Global, calls: bool, net: &Net) -> Option<()> {
    let system = net.system();
    let mut table = MapTable::reserve(alloc, system.caps()).ok()?;
    if calls {
        call_table(&mut table, &system);
        let _survey = survey(&system, &mut SeedPast::new(0, 0), &mut table, 4);
    }
    Some(())
}

#[tactic(auto, using(crate::proofs::WithinLemmas::same_below))]
fn call_table(table: &mut MapTable, system: &System<'_, Event>)
    requires { table.old.caps ≡ system.now.caps }
    ensures { table.new.caps ≡ system.now.caps }
{
    let caps = system.caps();
    table.reset();
    table.older(&Idle::new(caps));
    let _image = table.at(&caps);
    let _told = (table.image_size(), table.constant());
}
