//! `exact NET SEED STREAM H`: the composed map of all states of a network, followed state by state.

ghost use Rattle.std.specs.Prelude.{◌≡◌, ◌≤◌, ◌<◌, IfOk, IfErr, OnOk};
ghost use Rattle.psi_exact.specs.Refusal.{IsMapRefusal};
ghost use Rattle.psi_net_model.specs.Network.{caps_of};
ghost use Rattle.psi_reply.specs.Surveys.{HasExponent};
ghost use Rattle.psi_reply.specs.Exact.{meeting, sizes, state_count, meeting_status, region};
ghost use Rattle.psi_reply.specs.Reply.{survey_reply};
ghost use Rattle.psi_reply.specs.Ending.{EndsWith};
ghost use Rattle.psi_reply.specs.Ended.{ending_of};

use crate::ending::Ending;
use crate::surveys::survey_text;
use psi_command::Status;
use psi_couple::{Coupled, least_horizon};
use psi_exact::{MOST_STATES, MapRefusal, MapTable, Meeting, Survey, survey};
use psi_follow::plan_of;
use psi_horizon::OutOfMemory;
use psi_net_model::Net;
use psi_past::SeedPast;
use psi_state::Bounds;
use std::alloc::Global;

// The survey of the network's map, over the last 2 to the power `h` steps. The table of the map is dropped
// with the call.
fn survey_of(alloc: Global, net: &Net, seed: u64, stream: u64, h: u8) -> Result<Survey, MapRefusal>
    requires { h ≤ 12 }
    ensures sizes { IfOk result (λ survey. survey.sizes ≡ sizes net.now seed stream h) }
    ensures meeting { IfOk result (λ survey. survey.meeting ≡ meeting net.now seed stream h) }
    ensures exponent { IfOk result (λ survey. HasExponent survey.meeting) }
    ensures few { OnOk result (state_count net.now ≤ 65536) }
    ensures refused { IfErr result (λ refusal. IsMapRefusal refusal (caps_of net.now)) }
{
    let system = net.system();
    let mut table = MapTable::reserve(alloc, system.caps())?;
    let mut past = SeedPast::new(seed, stream);
    Ok(survey(&system, &mut past, &mut table, h))
}

// The least horizon from 1 to 2 to the power `h` whose region run ends with one state.
fn region_of(
    alloc: Global,
    net: &Net,
    seed: u64,
    stream: u64,
    h: u8,
) -> Result<Coupled, OutOfMemory>
    requires { h ≤ 12 }
    ensures { IfOk result (λ coupled. coupled ≡ region net.now seed stream h) }
{
    let system = net.system().with_limit(h);
    let mut plan = plan_of(alloc, system, SeedPast::new(seed, stream))?;
    let coupled = least_horizon(&mut plan);
    drop(plan);
    Ok(coupled)
}

// The status of a survey, once it is printed.
fn meeting_status(meeting: &Meeting) -> Status
    ensures { result ≡ meeting_status meeting.now }
{
    match meeting {
        Meeting::Constant { .. } => Status::Done,
        Meeting::NotConstant { .. } => Status::NotCoupled,
    }
}

// The number of all states of a network that has at most 65,536.
fn count_of(net: &Net) -> u32
    requires { state_count net.now ≤ 65536 }
    ensures { result ≡ state_count net.now }
{
    let caps = net.system().caps();
    match Bounds::whole(&caps).volume_at_most(MOST_STATES) {
        Some(states) => states,
        None => unreachable!(),
    }
}

/// Does the work for `exact`: the composed map of all states of the network over the last 2 to the power `h` steps, `h`
/// from 0 to 12, under the words of a seed and a stream; status `Done` where all states have met, `NotCoupled` where
/// they haven't. `TooManyStates` where there are more than 65,536 states; else an allocation failed.
pub fn exact_ending<'w>(alloc: Global, net: &Net, seed: u64, stream: u64, h: u8) -> Ending<'w>
    requires { h ≤ 12 }
    ensures { EndsWith (ending_of result) (survey_reply net.now seed stream h) }
{
    let survey = match survey_of(alloc, net, seed, stream, h) {
        Ok(survey) => survey,
        Err(MapRefusal::TooManyStates) => return Ending::TooManyStates,
        Err(MapRefusal::OutOfMemory) => return Ending::OutOfMemory,
    };
    let Ok(region) = region_of(alloc, net, seed, stream, h) else {
        return Ending::OutOfMemory;
    };
    let meeting = survey.meeting;
    let text = survey_text(alloc, count_of(net), &survey.sizes, &meeting, &region);
    Ending::printed(meeting_status(&meeting), text)
}
