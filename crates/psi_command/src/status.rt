//! How a call ends.

ghost use Rattle.std.specs.Prelude.{◌≡◌};
ghost use Rattle.psi_command.specs.Status.{status_code};

/// How a call of the program ends.
#[derive(Clone, Copy, PartialEq, Eq, Debug)]
pub enum Status {
    /// What was asked for is printed: a sample or a value that is met, a map of all states that is constant, a
    /// description, a report, a log, or the verdict that a log is accepted.
    Done,
    /// A sample, a least horizon or a value isn't met within the network's greatest horizon, or the map of all
    /// states isn't constant within the horizon that was asked for, and that is printed.
    NotCoupled,
    /// The words aren't a command; the place of the word that offends is told.
    Usage,
    /// The network file is refused; the refusal is told.
    NetRefused,
    /// A text is refused as a log, or a log is rejected; the line and the cause are told. Only `replay` gives
    /// this.
    LogRefused,
    /// The log of a sample would have more than 33,554,432 bytes, and nothing of it is written. Only
    /// `sample` with the word `log` gives this.
    LogTooLong,
    /// The network file or the log file couldn't be read, which is told. It comes only where the shelf's
    /// count of that name rose.
    ReadFault,
    /// A text couldn't be written whole. It comes only where the count of out or of err rose, and nothing
    /// more is written to either.
    WriteFault,
    /// There was not enough memory. It comes only before the first byte is written.
    OutOfMemory,
    /// The network has no reward of the name that was asked for; that is told.
    UnknownReward,
    /// The network has more than 65,536 states, so that no table of all of them is made; that is told. Only
    /// `exact` gives this.
    TooManyStates,
    /// An event of the network isn't the service that moves one customer from a queue to another and stays
    /// where that is full; the first such event is told. Only `closed` gives this.
    NotClosed,
    /// The network's queues can't hold as many customers as were asked for; that is told. Only `closed` gives
    /// this.
    NoSuchTotal,
}

impl Status {
    /// The exit status of the program: 0 to 12, in the order of the variants.
    pub fn code(&self) -> u8
        ensures { result ≡ status_code self.now }
    {
        match self {
            Status::Done => 0,
            Status::NotCoupled => 1,
            Status::Usage => 2,
            Status::NetRefused => 3,
            Status::LogRefused => 4,
            Status::LogTooLong => 5,
            Status::ReadFault => 6,
            Status::WriteFault => 7,
            Status::OutOfMemory => 8,
            Status::UnknownReward => 9,
            Status::TooManyStates => 10,
            Status::NotClosed => 11,
            Status::NoSuchTotal => 12,
        }
    }
}
