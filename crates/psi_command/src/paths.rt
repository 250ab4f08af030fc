//! The paths that the words of `psi_paths` ask for.

ghost use Rattle.std.specs.Prelude.{◌≡◌, ◌≤◌, map, string_bytes, IfOk};
ghost use Rattle.psi_command.specs.Paths.{paths_of, GivesPaths, ArePathsInRange};

use crate::table::{Table, first_words};

/// The most steps that a path may have: its random words stand at places from 2 to the power 22 on, and below 2 to the
/// power 32.
const MOST_STEPS: u64 = 4_290_772_992;

/// Paths of `steps` steps that begin in the samples of several streams, one row of sums for each.
#[derive(Clone, Copy, Debug)]
pub struct Paths<'w> {
    /// The samples in which the paths begin.
    pub table: Table<'w>,
    /// The number of steps of each path, 0 to 4,290,772,992.
    pub steps: u32,
}

/// Returns the paths that the arguments ask for, or the place of the argument that offends, counted from 1. It does not
/// allocate.
#[tactic(auto, unfolding(crate::specs::Paths::paths_of))]
pub fn paths_of(words: &[String]) -> Result<Paths<'_>, u8>
    ensures paths { GivesPaths result (paths_of (map string_bytes words.now)) }
    ensures ranges { IfOk result ArePathsInRange }
{
    let (table, mut words) = first_words(words)?;
    let steps = words.next_number(MOST_STEPS)? as u32;
    let total = words.last_total()?;
    let table = Table { total, ..table };
    Ok(Paths { table, steps })
}
