//! Laws on reports, each the contract of a function that does nothing.

ghost use Rattle.psi_report_reader.specs.Reading.{ReadIsText, TextIsRead};
ghost use Rattle.psi_report_reader.specs.Small.{ReportIsRead};
ghost use Rattle.psi_report_reader.specs.Samples.{SamplesAreRead, ReportsAreShort};
ghost use Rattle.psi_report_reader.specs.Merging.{ReportsAreMerged, SamplesAreMerged};
ghost use Rattle.psi_report_reader.specs.Sound.{ReportIsSound, SumsAreReached};
ghost use Rattle.psi_report_reader.specs.Reached.{QueueReportsAreReached, WorthsAreReached};
ghost use Rattle.psi_report_reader.specs.Lines.{RowsStandOnLines, WrongLinesAreNone, ReportsShowNetworks, NetworksAreTold, OtherLinesAreNone, MergedIsReport, FittingAreMerged};

/// A text that is read is that of the report, and the text of each report is read as this report: what reads and what
/// writes are each other's inverse.
#[tactic(auto, using(crate::proofs::ReadLemmas::read_is_text, crate::proofs::ReadLemmas::text_is_read))]
pub fn text_is_read()
    ensures found { ReadIsText }
    ensures again { TextIsRead }
{}

/// The report of less than 2^32 samples of a network, whose values have 64 bits, is read as its contents; and so is
/// that of less than 2^64 samples of a network that a file may describe.
#[tactic(auto, using(crate::proofs::SmallLemmas::report_is_read, crate::proofs::SampleLemmas::samples_read))]
pub fn report_is_read()
    ensures measured { ReportIsRead }
    ensures sampled { SamplesAreRead }
{}

/// The report of less than 2^64 samples of a network that a file may describe has at most 32,768 bytes.
#[tactic(auto, using(crate::proofs::ShortLemmas::reports_short))]
pub fn reports_are_short()
    ensures { ReportsAreShort }
{}

/// The reports of two lists of samples of one network, less than 2^32 together, whose values have 64 bits, are merged
/// into the report of both lists, one after another; and so are those of less than 2^64 samples together of a
/// network that a file may describe.
#[tactic(auto, using(crate::proofs::MergeLawLemmas::reports_merged, crate::proofs::SampleLemmas::samples_merged))]
pub fn reports_are_merged()
    ensures measured { ReportsAreMerged }
    ensures sampled { SamplesAreMerged }
{}

/// The report of samples of a network that a file may describe has no line that no report of samples has there:
/// [`flaw_of`](crate::flaw_of) answers none of it.
#[tactic(auto, using(crate::proofs::SoundLemmas::report_sound))]
pub fn report_is_sound()
    ensures { ReportIsSound }
{}

/// The judgement of a sum is exact: where so many values with this least and this greatest may have it, there are
/// values that do.
#[tactic(auto, using(crate::proofs::ReachLemmas::sums_reached))]
pub fn sums_are_reached()
    ensures { SumsAreReached }
{}

/// The range of a reward's least and greatest value is no wider than rewards need: a reward of some queues has a value of
/// no lower magnitude than each that may stand there.
#[tactic(auto, using(crate::proofs::WorthReachLemmas::worths_reached))]
pub fn worths_are_reached()
    ensures { WorthsAreReached }
{}

/// The judgement of a report of queues alone is exact: where [`flaw_of`](crate::flaw_of) answers none, there
/// are a network that a file may describe and samples of it whose report it is.
#[tactic(auto, using(crate::proofs::ReachedLemmas::queue_reports_reached))]
pub fn queue_reports_are_reached()
    ensures { QueueReportsAreReached }
{}

/// Each report of which [`flaw_of`](crate::flaw_of) answers none, with rewards or without, shows the queues and
/// the rewards of a network that a file may describe: so many of each, under such names.
#[tactic(auto, using(crate::proofs::ShownLemmas::reports_show))]
pub fn reports_show_networks()
    ensures { ReportsShowNetworks }
{}

/// The lines that refusals name for horizons, figures and sums are those on which their rows stand.
#[tactic(auto, using(crate::proofs::StandLemmas::rows_stand))]
pub fn rows_stand_on_lines()
    ensures { RowsStandOnLines }
{}

/// The line that [`flaw_of`](crate::flaw_of) answers is wrong whatever follows it: no samples of a
/// network that a file may describe have a report with the lines up to it, and where it has a sum, with two more, which
/// may have its extremes.
#[tactic(auto, using(crate::proofs::WrongLemmas::wrong_lines))]
pub fn wrong_lines_are_none()
    ensures { WrongLinesAreNone }
{}

/// [`merged`](crate::merged) answers `OtherNetwork` exactly where two reports don't show the same queues
/// and the same rewards, each by its name and in the same order; so it merges only reports that do.
#[tactic(auto, using(crate::proofs::NetworkLemmas::networks_told))]
pub fn networks_are_told()
    ensures { NetworksAreTold }
{}

/// The line of `OtherNetwork` is of another network whatever follows it: where the first report is of samples of a
/// network, no samples of this network have a report with the second one's lines up to it.
#[tactic(auto, using(crate::proofs::NetworkLemmas::other_lines))]
pub fn other_lines_are_none()
    ensures { OtherLinesAreNone }
{}

/// What [`merged`](crate::merged) gives of two reports is a report, whose text is read as it; and two that show the
/// same queues and rewards are merged wherever their contents together are one: `TooLarge` is the answer exactly where
/// it would have a count of 2^64 or more, or a figure whose magnitude is 10^37 or more.
#[tactic(auto, using(crate::proofs::FittingLemmas::merged_report, crate::proofs::FittingLemmas::fitting_merged))]
pub fn merged_are_reports()
    ensures told { MergedIsReport }
    ensures whole { FittingAreMerged }
{}
