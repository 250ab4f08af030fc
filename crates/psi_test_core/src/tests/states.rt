//! States and lists of queues of given numbers; hashes of states by an outside value, and the states of a box, collected
//! in each way.

ghost use Rattle.std.specs.Prelude.{◌≡◌, ◌≤◌, IfOk, map, length};
ghost use Rattle.psi_state.specs.State.{box};

use psi_state::{Bounds, Queues, State};
use std::alloc::{AllocError, Global};
use std::test::Fail;

/// A state of these numbers.
pub(super) fn state_of(numbers: &[u16]) -> State
    requires some { 1 ≤ length numbers.now }
    requires few { length numbers.now ≤ 32 }
    ensures { result ≡ numbers.now }
{
    let mut x = State::zero(numbers.len() as u8);
    for i in 0..numbers.len() {
        x.set(i as u8, numbers[i]);
    }
    x
}

/// The list of these queues.
pub(super) fn queues_of(numbers: &[u8]) -> Queues
    requires { length numbers.now ≤ 32 }
    ensures { result ≡ numbers.now }
{
    let mut queues = Queues::empty();
    for i in 0..numbers.len() {
        queues.push(numbers[i]);
    }
    queues
}

// A caller that collects the states of a box has its list.
fn collected(alloc: Global, bounds: &Bounds) -> Result<Vec<State>, AllocError>
    ensures { IfOk result (λ v. v.items ≡ box bounds.now.lo bounds.now.hi) }
{
    bounds.states().collect(alloc)
}

// A chain over the states knows its items.
fn lengths(alloc: Global, bounds: &Bounds) -> Result<Vec<u8>, AllocError>
    ensures { IfOk result (λ v. v.items ≡ map (λ x. length x) (box bounds.now.lo bounds.now.hi)) }
{
    bounds.states().map(|x| x.len()).collect(alloc)
}

#[test]
fn states_have_hashes(rt: HostRuntime) {
    // Computed by an independent program. Up to eight queues are two quads, and nine are eight.
    assert_eq!(rt; state_of(&[1]).hash(), 3_745_787_170);
    assert_eq!(rt; state_of(&[0, 1]).hash(), 757_255_752);
    assert_eq!(rt; state_of(&[65_535; 8]).hash(), 2_189_711_651);
    assert_eq!(rt;
        state_of(&[1, 2, 3, 4, 5, 6, 7, 8, 9]).hash(),
        1_006_586_220
    );
}

#[test]
fn the_states_of_a_box_are_listed(rt: HostRuntime) -> Result<(), Fail> {
    let bounds = Bounds::new(state_of(&[1, 0]), state_of(&[2, 2]));
    let wanted = [[1, 0], [1, 1], [1, 2], [2, 0], [2, 1], [2, 2]].map(|x| state_of(&x));
    let states = collected(rt.alloc(), &bounds)?;
    assert_eq!(rt; states.as_slice(), wanted.as_slice());
    assert_eq!(rt; lengths(rt.alloc(), &bounds)?.as_slice(), [2; 6].as_slice());
    Ok(())
}
