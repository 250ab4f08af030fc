//! The laws of tables of paths.

ghost use Rattle.psi_paths_laws.specs.Counted.{PathsAreCounted, ClosedPathsAreCounted};
ghost use Rattle.psi_paths_laws.specs.Statements.{PathsAreJoined, PrintedPathsAreJoined, ShortPathsTellSamples, UnmetPathsAreEmpty};

/// The table of the paths of streams is that of the first of them, and behind it the rows of the others: of any samples
/// (`any`), and of those that `psi_paths` prints of streams, and of those behind them (`printed`). So many machines can draw one
/// table.
#[tactic(auto, using(crate::proofs::JoinedLemmas::joined, crate::proofs::JoinedLemmas::printed_joined))]
pub fn paths_are_joined()
    ensures any { PathsAreJoined }
    ensures printed { PrintedPathsAreJoined }
{}

/// The row of a path of no step has the stream, the horizon and the values that the row of its sample has, and each event has
/// happened at no time (`met`). Where the sample isn't met, each field behind the stream is empty, whatever the number of steps
/// (`unmet`).
pub fn short_paths_tell_samples()
    ensures met { ShortPathsTellSamples }
    ensures unmet { UnmetPathsAreEmpty }
{}

/// The sums of a row are those that the law of paths counts, at the random words of the seed and the stream.
///
/// - `samples`: where the sample of a stream is met, its row has for each queue and each reward the sum along the path that
///   [`law_of_network_paths`](psi_law_paths::law_of_network_paths) counts. Where it is not met, the law counts one number for
///   each state of the path.
/// - `closed`: so it is of the samples of a closed network, and of
///   [`law_of_closed_network_paths`](psi_law_paths::law_of_closed_network_paths).
#[tactic(auto, using(crate::proofs::CountedLemmas::paths_counted, crate::proofs::CountedLemmas::closed_paths_counted))]
pub fn paths_are_counted()
    ensures samples { PathsAreCounted }
    ensures closed { ClosedPathsAreCounted }
{}
