//! Lines of a log as they are written, each read in one pass, with what it says worked out by hand. The calls that read
//! them so say nothing of a line where they give none, so a body that never gives one breaks no clause.

use super::states::state_of;
use psi_log::LogReader;
use psi_log_format::StateList;
use psi_log_scan::{read_changes, read_new_set, step_at};
use psi_state::{Bounds, State, Step};
use std::alloc::Global;
use std::test::Fail;

// A set with states one after another of which one number differs, from one digit to two and after the number, and
// with others; after it as many bytes as are looked at together.
const SET: &[u8] = b" set 0,8 0,9 0,10 0,11 1,0 2,0 9,0 10,0 11,0 11,12
end 0,0                                                                                                                         ";

// What the first queue holds in each of its states, and the second.
const FIRST: [u16; 10] = [0, 0, 0, 0, 1, 2, 9, 10, 11, 11];

const SECOND: [u16; 10] = [8, 9, 10, 11, 0, 0, 0, 0, 0, 12];

const LOG: &[u8] = b"psi-log 2
queues 2
seed 0
stream 0
horizon 3
begin box 0,0 1,1
step 3 1 move
step 2 0 set 0,0 0,1
step 1 1 set 0,0 0,1
end 0,0
";

// The corners that changes make of those of a box, where they are read in one pass up to the line feed.
fn changed(text: &[u8]) -> Option<(State, State)> {
    let around = Bounds::new(state_of(&[0, 0]), state_of(&[4, 12]));
    let (to, end) = read_changes(text, 0, 2, &around)?;
    if end + 1 != text.len() {
        return None;
    }
    Some((to.lo(), to.hi()))
}

// The states of a set that is read in one pass.
fn states_of(alloc: Global, text: &[u8]) -> Result<Vec<State>, Fail> {
    let mut states = StateList::new(alloc, 2);
    read_new_set(2, text, 0, &mut states)?.ok_or("a set")?;
    let mut found = Vec::new(alloc);
    for place in 0..states.len() {
        found.push(states.get(place))?;
    }
    Ok(found)
}

// Of each step of a log whether it left the region in its place.
fn stays_of(alloc: Global, text: &[u8]) -> Result<Vec<bool>, Fail> {
    let mut reader = LogReader::open(alloc, text).ok().ok_or("a log")?;
    let horizon = reader.header().horizon;
    let mut stays = Vec::new(alloc);
    for _ in 0..horizon {
        reader.next().ok().ok_or("a step")?;
        stays.push(reader.stays())?;
    }
    Ok(stays)
}

#[test]
fn a_step_is_read_in_one_pass(rt: HostRuntime) {
    let step = Step {
        number: 3,
        event: 12,
    };
    assert_eq!(rt; step_at(2, b"step 3 12 move\n"), Some((step, 9)));
}

#[test]
fn changes_are_read_in_one_pass(rt: HostRuntime) {
    let corners = (state_of(&[0, 2]), state_of(&[4, 10]));
    assert_eq!(rt; changed(b" 1,2,10\n"), Some(corners));
}

#[test]
fn a_set_is_read_in_one_pass(rt: HostRuntime) -> Result<(), Fail> {
    let mut wanted = Vec::new(rt.alloc());
    for i in 0..10 {
        wanted.push(state_of(&[FIRST[i], SECOND[i]]))?;
    }
    assert_eq!(rt; states_of(rt.alloc(), SET)?, wanted);
    Ok(())
}

#[test]
fn a_region_that_is_written_again_stays(rt: HostRuntime) -> Result<(), Fail> {
    let stays = stays_of(rt.alloc(), LOG)?;
    assert_eq!(rt; stays.as_slice(), [true, false, true].as_slice());
    Ok(())
}
