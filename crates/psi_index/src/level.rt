//! One level of a sparse table: the least value of each stretch of one length.

ghost use Rattle.std.specs.Prelude.{ℕ, ◌+◌, ◌^◌, ◌≤◌, length, IfOk};
ghost use Rattle.psi_index.specs.Extremes.{AreLeast};
ghost use Rattle.psi_index.specs.Inner.LevelsKept.{AreLevels, IsJoined};

use std::alloc::{AllocError, Global};

// The least value of each stretch of one length, by the stretch's first place.
#[derive(Drop, Debug)]
pub(crate) struct Level {
    pub least: Vec<u32>,
}

// The levels of the lengths 2, 4, 8 and so on, up to the number of the values.
pub(crate) fn levels_of(alloc: Global, values: &[u32]) -> Result<Vec<Level>, AllocError>
    requires some { 1 ≤ length values.now }
    requires few { length values.now ≤ 65535 }
    ensures levels { IfOk result (λ levels. AreLevels values.now levels.items) }
    ensures enough { IfOk result (λ levels. (e : ℕ) → 2 ^ e ≤ length values.now → e ≤ length levels.items) }
{
    let count = values.len().ilog2();
    let mut levels = Vec::with_capacity(alloc, count as usize)?;
    for made in 0..count {
        let level = next_level(alloc, values, &levels)?;
        levels.push(level)?;
    }
    Ok(levels)
}

// The level of stretches twice as long as those of the last one, or of two places where there is none yet.
fn next_level(alloc: Global, values: &[u32], levels: &[Level]) -> Result<Level, AllocError>
    requires few { length values.now ≤ 65535 }
    requires levels { AreLevels values.now levels.now }
    requires room { 2 ^ (length levels.now + 1) ≤ length values.now }
    ensures { IfOk result (λ level. AreLeast values.now (2 ^ (length levels.now + 1)) level.least.items) }
{
    let half = 1 << levels.len();
    match levels.last() {
        None => joined(alloc, values, half),
        Some(halves) => joined(alloc, &halves.least, half),
    }
}

// The level of stretches of twice `half` places, each made of two of those of `half` places.
fn joined(alloc: Global, halves: &[u32], half: usize) -> Result<Level, AllocError>
    requires { half ≤ length halves.now }
    ensures { IfOk result (λ level. IsJoined halves.now half level.least.items) }
{
    let count = halves.len() - half;
    let mut least = Vec::from_slice(alloc, &halves[..count])?;
    let later = &halves[half..];
    for i in 0..count {
        least[i] = least[i].min(later[i]);
    }
    Ok(Level { least })
}
