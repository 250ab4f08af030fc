//! Tallies of samples.

use psi_net::Net;
use psi_report::Tally;
use psi_state::Outcome;
use std::alloc::Global;

/// Makes two tallies, and calls them or not; `None` where memory is wanting.
pub(crate) fn make(alloc: Global, calls: bool, net: &Net) -> Option<()> {
    let mut tally = Tally::new(alloc, net).ok()?;
    let mut other = Tally::new(alloc, net).ok()?;
    if calls {
        let met = Outcome::Met {
            horizon: 1,
            state: net.system().caps(),
        };
        // A sample that isn't met, one that is, and those of two tallies together.
        tally.add(net, &Outcome::NotMet { limit: 1 });
        tally.add(net, &met);
        other.add(net, &met);
        tally.merge(&other);
    }
    Some(())
}
