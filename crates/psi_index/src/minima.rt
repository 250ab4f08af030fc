//! The least value of a stretch by a sparse table (Bender and Farach-Colton 2000).

ghost use Rattle.std.specs.Prelude.{◌≡◌, ◌+◌, ◌^◌, ◌<◌, ◌≤◌, length};
ghost use Rattle.psi_index.specs.Extremes.{AreLeast, IsLeast, least_of, stretch};
ghost use Rattle.psi_index.specs.Inner.LevelsKept.{IsSparse};

use crate::level::Level;

// The least of the values at the places from `from` to `to`, both included.
pub(crate) fn least_within(values: &[u32], levels: &[Level], from: u16, to: u16) -> u32
    requires sparse { IsSparse values.now levels.now }
    requires ordered { from ≤ to }
    requires within { to < length values.now }
    ensures value { result ≡ least_of (stretch values.now from to) }
    ensures least { IsLeast values.now from (to + 1) result }
{
    if from == to {
        return values[from as usize];
    }
    let least = level(values, levels, ((to - from) as usize + 1).ilog2());
    let last = least.len() - (values.len() - to as usize);
    least[from as usize].min(least[last])
}

// The least value of each stretch of 2 to the power of `exponent` places.
fn level<'l>(values: &[u32], levels: &'l [Level], exponent: u32) -> &'l [u32]
    requires sparse { IsSparse values.now levels.now }
    requires some { 1 ≤ exponent }
    requires within { 2 ^ exponent ≤ length values.now }
    ensures { AreLeast values.now (2 ^ exponent) result.now }
{
    &levels[exponent as usize - 1].least
}
