//! The laws of tables.

ghost use Rattle.psi_states_laws.specs.Statements.{TablesAreJoined, PrintedAreJoined, RowsTell, ReportsAreOfTables};

/// The table of streams is that of the first of them, and behind it the rows of the others: of any samples (`any`), and of
/// those that `psi_states` prints of streams, and of those behind them (`printed`). So many machines can draw one table.
#[tactic(auto, using(crate::proofs::ToldLemmas::tables_joined, crate::proofs::ToldLemmas::printed_joined))]
pub fn tables_are_joined()
    ensures any { TablesAreJoined }
    ensures printed { PrintedAreJoined }
{}

/// The fields of a row are those of the horizon and of the values that it tells (`rows`), and the report of samples, with its
/// numbers, horizons, sums and extremes, is the one that is made of what the rows of their table tell (`reports`).
#[tactic(auto, using(crate::proofs::ToldLemmas::rows_tell, crate::proofs::ToldLemmas::reports_told))]
pub fn reports_are_of_tables()
    ensures rows { RowsTell }
    ensures reports { ReportsAreOfTables }
{}
