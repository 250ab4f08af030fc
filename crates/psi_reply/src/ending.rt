//! How the work of a call ends, before anything is written.

ghost use Rattle.std.specs.Prelude.{◌≡◌, ℕ, List, [], IfOk, IsOk};

use crate::lines::{
    Line, log_refused_line, log_rejected_line, log_unread_line, memory_line, network_unread_line,
    no_total_line, not_closed_line, refused_line, too_long_line, too_many_line, unknown_line,
    usage_line,
};
use psi_command::Status;
use psi_net_document::NetRefusal;
use psi_program::Text;
use std::alloc::AllocError;

/// How the work of a call ends, after its allocations and before anything is written.
#[derive(Drop, Debug)]
pub enum Ending<'w> {
    /// With what the command asks for.
    Printed {
        /// The status once the text is written.
        status: Status,
        /// The text for out.
        text: Vec<u8>,
    },
    /// The words aren't a command; with the place of the word that offends, counted from 1.
    Usage(u8),
    /// The network file is refused.
    NetRefused(NetRefusal),
    /// The text is no log.
    LogRefused {
        /// The first line that is refused, counted from 1; 0 where the text is too long.
        line: u32,
        /// The number of the line's first cause, 1 to 7.
        cause: u8,
    },
    /// The log breaks a rule.
    LogRejected {
        /// The first line that breaks one, counted from 1.
        line: u32,
        /// The number of the line's first cause, 1 to 8.
        cause: u8,
    },
    /// The log of a sample would be too long.
    LogTooLong,
    /// The network has no reward of the name.
    UnknownReward,
    /// The network has more than 65,536 states.
    TooManyStates,
    /// The event of this number isn't a move of one customer, and those before it are.
    NotClosed(u16),
    /// The queues can't hold as many customers.
    NoSuchTotal,
    /// The network file of this name couldn't be read.
    NetUnread(&'w str),
    /// The log file of this name couldn't be read.
    LogUnread(&'w str),
    /// An allocation failed.
    OutOfMemory,
}

impl<'w> Ending<'w> {
    ghost use Rattle.psi_program.specs.Reply.{text_reply};
    ghost use Rattle.psi_program.specs.Written.{reply_with};
    ghost use Rattle.psi_reply.specs.Ending.{EndsWith, HasReplied, ending_reply, with_line};
    ghost use Rattle.psi_reply.specs.Ended.{ending_of};

    // The ending with a text for out, or `OutOfMemory` if an allocation fails.
    pub(crate) fn printed(status: Status, text: Result<Vec<u8>, AllocError>) -> Ending<'w>
        ensures ends { (wanted : List ℕ) → IfOk text (λ text. text.items ≡ wanted) → EndsWith (ending_of result) (text_reply status wanted) }
        ensures replied { HasReplied (ending_of result) → IsOk text }
    {
        match text {
            Ok(text) => Ending::Printed { status, text },
            Err(_) => Ending::OutOfMemory,
        }
    }

    /// Returns the status of the call, once the text of the ending is written whole.
    pub fn status(&self) -> Status
        ensures { result ≡ (ending_reply (ending_of self.now)).status }
    {
        match self {
            Ending::Printed { status, .. } => *status,
            Ending::Usage(_) => Status::Usage,
            Ending::NetRefused(_) => Status::NetRefused,
            Ending::LogRefused { .. } => Status::LogRefused,
            Ending::LogRejected { .. } => Status::LogRefused,
            Ending::LogTooLong => Status::LogTooLong,
            Ending::UnknownReward => Status::UnknownReward,
            Ending::TooManyStates => Status::TooManyStates,
            Ending::NotClosed(_) => Status::NotClosed,
            Ending::NoSuchTotal => Status::NoSuchTotal,
            Ending::NetUnread(_) => Status::ReadFault,
            Ending::LogUnread(_) => Status::ReadFault,
            Ending::OutOfMemory => Status::OutOfMemory,
        }
    }

    /// Returns the line for err; none where a text is printed.
    pub fn line(&self) -> Line
        ensures { result.items ≡ (ending_reply (ending_of self.now)).err }
    {
        match self {
            Ending::Printed { .. } => Line::new(),
            Ending::Usage(place) => usage_line(*place),
            Ending::NetRefused(refusal) => refused_line(refusal),
            Ending::LogRefused { line, cause } => log_refused_line(*line, *cause),
            Ending::LogRejected { line, cause } => log_rejected_line(*line, *cause),
            Ending::LogTooLong => too_long_line(),
            Ending::UnknownReward => unknown_line(),
            Ending::TooManyStates => too_many_line(),
            Ending::NotClosed(event) => not_closed_line(*event),
            Ending::NoSuchTotal => no_total_line(),
            Ending::NetUnread(_) => network_unread_line(),
            Ending::LogUnread(_) => log_unread_line(),
            Ending::OutOfMemory => memory_line(),
        }
    }

    /// Returns the text for out, or else this line for err; none where a text is printed.
    pub fn text<'t>(&'t self, line: &'t [u8]) -> Text<'t>
        requires { (ending_reply (ending_of self.now)).err ≡ [] → line.now ≡ [] }
        ensures { reply_with (ending_reply (ending_of self.now)).status result ≡ with_line (ending_reply (ending_of self.now)) line.now }
    {
        match self {
            Ending::Printed { text, .. } => Text::Printed(text.as_slice()),
            _ => Text::Reported(line),
        }
    }
}
