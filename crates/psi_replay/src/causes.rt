//! Why a log is rejected.

ghost use Rattle.std.specs.Prelude.{◌≡◌};
ghost use Rattle.psi_log_words.specs.Refusal.{holds_or};
ghost use Rattle.psi_replay.specs.Verdict.{code_of, rejected};
ghost use Rattle.psi_replay.specs.Judging.{Gives};

/// Why a line of a log is rejected.
#[derive(Clone, Copy, PartialEq, Eq, Debug)]
pub enum RuleCause {
    /// 1: the queues aren't as many as the network's, or the horizon is above 2 to the power of its limit.
    Header,
    /// 2: a step's number isn't that of its line: the first step has the horizon's, each later one is one less.
    StepNumber,
    /// 3: a step's event isn't that of the word at its time, of the header's seed and stream.
    WrongEvent,
    /// 4: a state of the region has a number of customers above its queue's capacity.
    OutsideBox,
    /// 5: the region at which the run begins isn't all states, or what a step's event makes of a state of the
    /// region before isn't in the region after.
    NotCovered,
    /// 6: a set follows a box of more than 4,096 states.
    SplitTooLarge,
    /// 7: the last region has more than one state.
    NotSingle,
    /// 8: the state of the last region isn't the one on the last line.
    WrongState,
}

/// A line that breaks a rule.
#[derive(Clone, Copy, Debug)]
pub(crate) struct Rejection {
    /// The line, counted from 1.
    pub(crate) line: u32,
    /// The rule that it breaks.
    pub(crate) cause: RuleCause,
}

impl RuleCause {
    /// Returns the number of the cause, 1 to 8.
    pub fn code(self) -> u8
        ensures { result ≡ code_of self }
    {
        match self {
            RuleCause::Header => 1,
            RuleCause::StepNumber => 2,
            RuleCause::WrongEvent => 3,
            RuleCause::OutsideBox => 4,
            RuleCause::NotCovered => 5,
            RuleCause::SplitTooLarge => 6,
            RuleCause::NotSingle => 7,
            RuleCause::WrongState => 8,
        }
    }

    /// The rejection of a line for this cause, unless its rule holds.
    pub(crate) fn unless(self, holds: bool, line: u32) -> Result<(), Rejection>
        ensures { Gives (λ _. tt) result (holds_or (rejected line self) holds) }
    {
        if holds {
            return Ok(());
        }
        Err(Rejection { line, cause: self })
    }
}
