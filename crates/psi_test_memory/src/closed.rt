//! Closed networks: their arcs, their diagrams and their samples.

ghost use Rattle.std.specs.Prelude.{◌≡◌, ◌≤◌, ◌∷◌, [], length};
ghost use Rattle.psi_state.specs.State.{AreCapacities};
ghost use Rattle.psi_closed.specs.Closed.{IsOfTotal};

use psi_closed::{ClosedPlan, Diagram};
use psi_closed_arcs::{Arc, Arcs, Reach};
use psi_kinds::Move;
use psi_past::SeedPast;
use psi_rate::{Wheel, first_answer};
use psi_state::State;
use std::alloc::Global;

/// Makes arcs, a diagram and a plan of a ring of three queues with room for two customers each, which hold three
/// customers in all, and calls each of them or not; `None` where memory is wanting.
pub(crate) fn make(alloc: Global, calls: bool) -> Option<()> {
    make_arcs(alloc, calls)?;
    make_diagram(alloc, calls)?;
    make_plan(alloc, calls)
}

// Three queues that hold so many customers each.
fn three(each: u16) -> State
    ensures { result ≡ each ∷ each ∷ each ∷ [] }
{
    let mut state = State::zero(3);
    state.set(0, each);
    state.set(1, each);
    state.set(2, each);
    state
}

// The capacities of the ring.
fn ring() -> State
    ensures value { result ≡ 2 ∷ 2 ∷ 2 ∷ [] }
    ensures valid { AreCapacities result }
{
    three(2)
}

// The move of a customer from one queue to another.
fn one_move(from: u8, to: u8) -> Move
    ensures { result ≡ record { from = from; k = 1; to = to } }
{
    Move { from, k: 1, to }
}

fn make_arcs(alloc: Global, calls: bool) -> Option<()> {
    let mut all = Arcs::reserve(alloc, 3, 3).ok()?;
    let mut reach = Reach::reserve(alloc).ok()?;
    if calls {
        // A move of the arcs is called by the diagram's.
        all.fill(&ring());
        all.keep_useful(&mut reach);
        let arc = Arc {
            level: 0,
            before: 0,
            value: 1,
        };
        all.insert(arc);
        let _there = (all.has(arc), all.first(0, 0));
        let _counts = (all.levels(), all.total(), all.len());
        all.clear();
    }
    Some(())
}

fn make_diagram(alloc: Global, calls: bool) -> Option<()> {
    let mut diagram = Diagram::reserve(alloc, ring(), 3).ok()?;
    if calls {
        call_diagram(&mut diagram);
    }
    Some(())
}

fn call_diagram(diagram: &mut Diagram)
    requires caps { diagram.old.caps ≡ 2 ∷ 2 ∷ 2 ∷ [] }
    requires total { diagram.old.total ≡ 3 }
{
    let one = three(1);
    diagram.start();
    diagram.advance(&one_move(0, 1));
    let _there = (diagram.holds(&one), diagram.arcs(), diagram.single());
    diagram.fit(&[one]);
}

fn make_plan(alloc: Global, calls: bool) -> Option<()> {
    let moves = [one_move(0, 1), one_move(1, 2), one_move(2, 0)];
    let wheel = Wheel::new(alloc, &[1, 2, 1]).ok()?;
    let past = SeedPast::new(0, 0);
    let mut plan = ClosedPlan::new(alloc, ring(), &moves, &wheel, 6, 3, past).ok()?;
    if calls {
        call_plan(&mut plan);
    }
    Some(())
}

// A sample, and the first answer of the plan's runs.
fn call_plan(plan: &mut ClosedPlan<'_, SeedPast>)
    requires { plan.old.network.limit ≡ 6 }
{
    let _outcome = plan.sample();
    let _first = first_answer(plan, 6);
}
