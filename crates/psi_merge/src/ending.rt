//! How the work of a call ends, before anything is written.

ghost use Rattle.std.specs.Prelude.{◌≡◌};

use crate::status::Status;
use psi_program::Text;

/// How the work of a call ends, after its allocations and before anything is written. Each line ends with a line
/// feed and has the name of the file.
#[derive(Drop, Debug)]
pub(crate) enum Ending {
    /// With the text of the report of all files.
    Merged(Vec<u8>),
    /// The words aren't names of files.
    Usage,
    /// A file is no report; with the line for err.
    Refused(Vec<u8>),
    /// A report is of another network; with the line for err.
    OtherNetwork(Vec<u8>),
    /// A number would be too large; with the line for err.
    TooLarge(Vec<u8>),
    /// A file couldn't be read; with the line for err.
    Unread(Vec<u8>),
    /// An allocation failed.
    OutOfMemory,
}

impl Ending {
    ghost use Rattle.psi_program.specs.Written.{reply_with};
    ghost use Rattle.psi_merge.specs.Ended.{ending_reply};

    /// The status of the call, once the text of the ending is written whole.
    pub(crate) fn status(&self) -> Status
        ensures { result ≡ (ending_reply self.now).status }
    {
        match self {
            Ending::Merged(_) => Status::Done,
            Ending::Usage => Status::Usage,
            Ending::Refused(_) => Status::Refused,
            Ending::OtherNetwork(_) => Status::OtherNetwork,
            Ending::TooLarge(_) => Status::TooLarge,
            Ending::Unread(_) => Status::ReadFault,
            Ending::OutOfMemory => Status::OutOfMemory,
        }
    }

    /// The text of the call: the report for out, or a line for err.
    pub(crate) fn text(&self) -> Text<'_>
        ensures { reply_with (ending_reply self.now).status result ≡ ending_reply self.now }
    {
        match self {
            Ending::Merged(text) => Text::Printed(text.as_slice()),
            Ending::Usage => Text::Reported(b"psi_merge: usage: psi_merge FILE..\n"),
            Ending::Refused(line) => Text::Reported(line.as_slice()),
            Ending::OtherNetwork(line) => Text::Reported(line.as_slice()),
            Ending::TooLarge(line) => Text::Reported(line.as_slice()),
            Ending::Unread(line) => Text::Reported(line.as_slice()),
            Ending::OutOfMemory => Text::Reported(b"psi_merge: out of memory\n"),
        }
    }
}
