//! Which words are kept, and how often a word is drawn, which no clause says.

use super::*;
use crate::counting::CountingPast;
use crate::list::ListPast;
use std::test::Fail;

#[test]
fn keeps_the_words_of_a_list_and_of_the_next(rt: HostRuntime) -> Result<(), Fail> {
    let first = ListPast::new([5, 6, 7].to_vec(rt.alloc())?);
    let next = ListPast::new([9].to_vec(rt.alloc())?);
    let mut kept = Kept::reserve(rt.alloc(), first, 4)?;
    kept.extend_to(2);
    assert_eq!(rt; kept.at(1), 6);
    kept.replace(next);
    kept.extend_to(1);
    assert_eq!(rt; kept.at(0), 9);
    kept.extend_to(4);
    assert_eq!(rt; kept.at(3), 0);
    Ok(())
}

#[test]
fn draws_each_word_once_and_in_order(rt: HostRuntime) -> Result<(), Fail> {
    let mut kept = Kept::reserve(rt.alloc(), CountingPast::new(), 64)?;
    kept.extend_to(1);
    kept.extend_to(2);
    kept.extend_to(16);
    assert_eq!(rt; kept.past.drawn, 16);
    kept.extend_to(8);
    assert_eq!(rt; kept.past.drawn, 16);
    kept.extend_to(64);
    assert_eq!(rt; kept.past.drawn, 64);
    assert!(rt; kept.past.in_order);
    Ok(())
}
