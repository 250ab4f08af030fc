//! How often a word is drawn, which no clause says.

use super::*;
use crate::counting::CountingPast;
use std::test::Fail;

#[test]
fn draws_each_window_once(rt: HostRuntime) -> Result<(), Fail> {
    let mut past = Windowed::new(CountingPast::new());
    for place in (0..512u32).rev() {
        assert_eq!(rt; past.word(place), place);
    }
    assert_eq!(rt; past.past.drawn, 512);
    Ok(())
}
