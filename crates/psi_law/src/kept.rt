//! What every network and every wheel keep, for the laws of this crate.

ghost use Rattle.psi_rate.specs.Rates.{AreRates};
ghost use Rattle.psi_net_model.specs.Valid.{IsNetwork};

use psi_net_model::Net;
use psi_rate::Wheel;

/// Every network is one that can be sampled.
pub(crate) fn networks_are_kept(net: &Net)
    ensures kept { IsNetwork net.now }
{
    // Called for its clause: the network is one that can be sampled.
    let _queues = net.queues();
}

/// Every wheel has rates of events.
pub(crate) fn wheels_have_rates(wheel: &Wheel)
    ensures valid { AreRates wheel.now }
{
    // Called for its clause: the rates make a wheel.
    let _events = wheel.events();
}
