//! Laws on the reports of the networks that there are.

ghost use Rattle.psi_report_laws.specs.Described.{NetworksAreDescribed, GeneratedAreDescribed, ReportsAreReadBack, ReportsAreMerged};
ghost use Rattle.psi_report_laws.specs.Printed.{PrintedReportsAreRead, PrintedReportsAreMerged};

/// Each network that is read of a file's bytes is one that a file may describe, of which reports are read back, judged
/// and merged; and so is the network that a trial makes of a number.
pub fn networks_are_described()
    ensures read { NetworksAreDescribed }
    ensures generated { GeneratedAreDescribed }
{}

/// The report of less than 2^64 samples of a network that is read of a file, each of which its totals may count, is read
/// as its contents, no line of it is wrong, and it has at most 32,768 bytes; and the reports of two lists of them are
/// merged into that of both lists, one after another.
pub fn reports_are_read_back()
    ensures read { ReportsAreReadBack }
    ensures merged { ReportsAreMerged }
{}

/// What [`run`](psi_run::run) prints where its words are a report of the network in a file is read as the contents for
/// the samples that the seed and the streams draw, no line of it is wrong, and it has at most 32,768 bytes; and what it
/// prints of streams, and of those after them, is merged into what it prints of all of them.
pub fn printed_reports_are_read_back()
    ensures read { PrintedReportsAreRead }
    ensures merged { PrintedReportsAreMerged }
{}
