//! What every network keeps, for the laws of this crate.

ghost use Rattle.psi_net_model.specs.Valid.{IsNetwork};

use psi_net_model::Net;

/// Every network is one that can be sampled.
pub(crate) fn networks_are_kept(net: &Net)
    ensures kept { IsNetwork net.now }
{
    // Called for its clause: the network is one that can be sampled.
    let _queues = net.queues();
}
