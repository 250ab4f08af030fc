//! How a call ends.

ghost use Rattle.std.specs.Prelude.{◌≡◌};
ghost use Rattle.psi_merge.specs.Status.{status_code};

/// How a call of the program ends.
#[derive(Clone, Copy, PartialEq, Eq, Debug)]
pub enum Status {
    /// The report of all files is printed.
    Done,
    /// The words aren't names of files, one at least.
    Usage,
    /// A file is no report; the line printed has its line, the cause and its name.
    Refused,
    /// A report is of another network than the first; the line printed has the line that differs and its name.
    OtherNetwork,
    /// With a report a count or a sum would be greater than a report may have; the line printed has the line of that
    /// number and its name.
    TooLarge,
    /// A file couldn't be read; the line printed has its name. It comes only where the shelf's count of that name rose.
    ReadFault,
    /// A text couldn't be written whole. It comes only where the count of out or of err rose, and nothing more is
    /// written to either.
    WriteFault,
    /// An allocation failed. It comes only before the first byte is written.
    OutOfMemory,
}

impl Status {
    /// Returns the exit status of the program: 0, or 2 to 8 in the order of the variants.
    pub fn code(&self) -> u8
        ensures { result ≡ status_code self.now }
    {
        match self {
            Status::Done => 0,
            Status::Usage => 2,
            Status::Refused => 3,
            Status::OtherNetwork => 4,
            Status::TooLarge => 5,
            Status::ReadFault => 6,
            Status::WriteFault => 7,
            Status::OutOfMemory => 8,
        }
    }
}
