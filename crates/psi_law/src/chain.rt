//! The stationary distribution of a chain.

ghost use Rattle.psi_law.specs.Statements.{EliminationIsStationary};

/// Every finite chain has a stationary distribution: weights of its states that balance and not all of which are 0 (`stationary`).
///
/// State elimination finds them, in whole numbers (Grassmann, Taksar and Heyman 1985).
pub fn law_of_chains()
    ensures stationary { EliminationIsStationary }
{
    // Nothing is called: it is true of every chain, whatever it was made of.
}
