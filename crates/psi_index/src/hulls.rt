//! The greatest value up to each place of a list, and the least from it on.

ghost use Rattle.std.specs.Prelude.{IfOk};
ghost use Rattle.psi_index.specs.Inner.BoundsKept.{ArePeaks, AreTroughs};

use std::alloc::{AllocError, Global};

// The greatest value up to each place.
pub(crate) fn peaks_of(alloc: Global, values: &[u32]) -> Result<Vec<u32>, AllocError>
    ensures { IfOk result (λ peaks. ArePeaks values.now peaks.items) }
{
    let mut peaks = Vec::from_slice(alloc, values)?;
    let mut peak = 0;
    for i in 0..values.len() {
        peak = peak.max(values[i]);
        peaks[i] = peak;
    }
    Ok(peaks)
}

// The least value from each place on.
pub(crate) fn troughs_of(alloc: Global, values: &[u32]) -> Result<Vec<u32>, AllocError>
    ensures { IfOk result (λ troughs. AreTroughs values.now troughs.items) }
{
    let mut troughs = Vec::from_slice(alloc, values)?;
    let mut trough = u32::MAX;
    for i in (0..values.len()).rev() {
        trough = trough.min(values[i]);
        troughs[i] = trough;
    }
    Ok(troughs)
}
