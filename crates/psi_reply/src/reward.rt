//! `reward NET SEED STREAM NAME`: the value of a reward at time zero, as soon as all states have one.

ghost use Rattle.std.specs.Prelude.{◌≡◌, Some, None, IfOk, IfSome};
ghost use Rattle.psi_reward.specs.Rewards.{reward_caps, reward_kind};
ghost use Rattle.psi_net_model.specs.Network.{caps_of};
ghost use Rattle.psi_reply.specs.Reward.{kind_named, valuation, value_status};
ghost use Rattle.psi_reply.specs.Values.{HasLimit};
ghost use Rattle.psi_reply.specs.Reply.{value_reply};
ghost use Rattle.psi_reply.specs.Ending.{EndsWith};
ghost use Rattle.psi_reply.specs.Ended.{ending_of};

use crate::ending::Ending;
use crate::planning::plan_for;
use crate::texts::value_text;
use psi_command::Status;
use psi_couple::{Valued, value_horizon};
use psi_horizon::OutOfMemory;
use psi_net_model::Net;
use psi_reward::Reward;
use std::alloc::Global;

// The reward of this name, if the network has one.
fn reward_at<'n>(net: &'n Net, name: &str) -> Option<&'n Reward>
    ensures found { IfSome result (λ reward. kind_named name.now net.now.rewards ≡ Some (reward_kind reward.now)) }
    ensures caps { IfSome result (λ reward. reward_caps reward.now ≡ caps_of net.now) }
    ensures none { result ≡ None → kind_named name.now net.now.rewards ≡ None }
{
    for place in 0..net.rewards() {
        if net.reward_name(place).bytes() == name.as_bytes() {
            return Some(net.reward(place));
        }
    }
    None
}

// The first value of a reward under the words of a seed and a stream.
fn value_of(
    alloc: Global,
    net: &Net,
    reward: &Reward,
    seed: u64,
    stream: u64,
) -> Result<Valued, OutOfMemory>
    requires { reward_caps reward.now ≡ caps_of net.now }
    ensures value { IfOk result (λ valued. valued ≡ valuation net.now seed stream (reward_kind reward.now)) }
    ensures limit { IfOk result HasLimit }
{
    let mut plan = plan_for(alloc, net, seed, stream)?;
    let valued = value_horizon(&mut plan, reward);
    drop(plan);
    Ok(valued)
}

/// Does the work for `reward`: the first horizon of 1, 2, 4, .. steps at which all states have one value of the
/// network's first reward of this name, under the words of a seed and a stream, with the value; status `Done`, or
/// `NotCoupled` where none up to the limit has. `UnknownReward` where no reward has the name; else an allocation
/// failed.
pub fn reward_ending<'w>(alloc: Global, net: &Net, seed: u64, stream: u64, name: &str) -> Ending<'w>
    ensures { EndsWith (ending_of result) (value_reply net.now seed stream (kind_named name.now net.now.rewards)) }
{
    let Some(reward) = reward_at(net, name) else {
        return Ending::UnknownReward;
    };
    let Ok(valued) = value_of(alloc, net, reward, seed, stream) else {
        return Ending::OutOfMemory;
    };
    Ending::printed(value_status(&valued), value_text(alloc, &valued))
}

// The status of a value, once it is printed.
fn value_status(valued: &Valued) -> Status
    ensures { result ≡ value_status valued.now }
{
    match valued {
        Valued::At { .. } => Status::Done,
        Valued::NotAt { .. } => Status::NotCoupled,
    }
}
