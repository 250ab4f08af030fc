//! Why a network file is refused.

ghost use Rattle.std.specs.Prelude.{◌≡◌, Option};

use psi_net_model::{Name, name_of};

/// The most bytes of a network file.
pub const MOST_NET_BYTES: u32 = 1_048_576;

/// The part of a network file that a refusal names.
#[derive(Clone, Copy, PartialEq, Eq, Debug)]
pub enum Section {
    /// The file as a whole: its bytes and its top keys.
    Top,
    /// A table of the array `queue`.
    Queue,
    /// A table of the array `event`.
    Event,
    /// A table of the array `reward`.
    Reward,
}

/// Why a network file is refused, and where: the first refusal in the order in which a file is judged.
///
/// | Code | Name | Cause |
/// |---|---|---|
/// | 0 | TooLong | the file has more than 1,048,576 bytes; judged first |
/// | 1 | NotToml | the bytes aren't UTF-8, or the text isn't a TOML document |
/// | 2 | Version | `version` is an integer other than 1 and 2 |
/// | 3 | UnknownKey | a table has a key that isn't named for it; the first in byte order is given |
/// | 4 | MissingKey | a required key is absent, or `queue` is an empty array |
/// | 5 | WrongType | a value is of another type than named |
/// | 6 | OutOfRange | a number is out of its range, a name isn't of its form, `full` is another string, a list that needs a name is empty, `part` is empty, or `size` isn't 1 beside `from` |
/// | 7 | TooMany | more than 32 queues, 1,024 events (listed or expanded over servers), 262,144 index values, 64 rewards, or 32 parts of one event |
/// | 8 | DuplicateName | an earlier table of the section has the name |
/// | 9 | UnknownQueue | a name is no queue's |
/// | 10 | UnknownKind | `kind` is none of the named strings |
/// | 11 | SelfTarget | a source is among its targets or is `on`, or the `to` of a join is in its `from` |
/// | 12 | RepeatedTarget | a list names a queue twice, or a part the queue of an earlier part of its event |
/// | 13 | TableLength | a table, a row or the weights have another length than named |
/// | 14 | BatchTooLarge | `size` is above a target's capacity |
/// | 15 | NoEvents | `event` is absent or an empty array |
/// | 16 | TotalTooLarge | the running total of the expanded rates passes 16,777,216 at this event |
/// | 18 | EmptyGuard | a part has `least` above `most` (key `least`) or `floor` above `ceiling` (key `floor`) |
///
/// There is no code 17.
#[derive(Clone, Copy, PartialEq, Eq, Debug)]
pub struct NetRefusal {
    /// The cause, by the table above.
    pub code: u8,
    /// The section in which the refused value stands.
    pub section: Section,
    /// The number of the table in its array, counted from 1; at the top it is 0.
    pub number: u32,
    /// The key of the refused value, where there is one and it has the form of a name.
    pub key: Option<Name>,
}

/// Why a value of a file is refused; [`NetRefusal`] has what each cause is.
#[derive(Clone, Copy, Debug)]
pub enum NetCause {
    /// The file has too many bytes: 0.
    TooLong,
    /// The bytes are no TOML document: 1.
    NotToml,
    /// The version is another number: 2.
    Version,
    /// A table has a key that isn't named for it: 3.
    UnknownKey,
    /// A required key is absent: 4.
    MissingKey,
    /// A value is of another type: 5.
    WrongType,
    /// A value is out of its range, or hasn't its form: 6.
    OutOfRange,
    /// There are too many of something: 7.
    TooMany,
    /// An earlier table of the section has the name: 8.
    DuplicateName,
    /// A name is no queue's: 9.
    UnknownQueue,
    /// A kind is none of the named strings: 10.
    UnknownKind,
    /// A source is among the targets: 11.
    SelfTarget,
    /// A queue is named twice: 12.
    RepeatedTarget,
    /// A list has another length: 13.
    TableLength,
    /// A size is above a target's capacity: 14.
    BatchTooLarge,
    /// There are no events: 15.
    NoEvents,
    /// The total of the rates is too large: 16.
    TotalTooLarge,
    /// A range has its least above its most: 18.
    EmptyGuard,
}

impl NetCause {
    ghost use Rattle.psi_net_document.specs.Refusal.{code_of, at_key, at_place};

    // The cause's number.
    fn code(self) -> u8
        ensures { result ≡ code_of self }
    {
        match self {
            NetCause::TooLong => 0,
            NetCause::NotToml => 1,
            NetCause::Version => 2,
            NetCause::UnknownKey => 3,
            NetCause::MissingKey => 4,
            NetCause::WrongType => 5,
            NetCause::OutOfRange => 6,
            NetCause::TooMany => 7,
            NetCause::DuplicateName => 8,
            NetCause::UnknownQueue => 9,
            NetCause::UnknownKind => 10,
            NetCause::SelfTarget => 11,
            NetCause::RepeatedTarget => 12,
            NetCause::TableLength => 13,
            NetCause::BatchTooLarge => 14,
            NetCause::NoEvents => 15,
            NetCause::TotalTooLarge => 16,
            NetCause::EmptyGuard => 18,
        }
    }

    /// Returns the refusal of the value at a key of a place; a key that hasn't the form of a name isn't given.
    pub fn at_key(self, place: Place, key: &str) -> NetRefusal
        ensures { result ≡ at_key self place key.now }
    {
        NetRefusal {
            code: self.code(),
            section: place.section,
            number: place.number,
            key: name_of(key),
        }
    }

    /// Returns the refusal of what stands at a place, without a key.
    pub fn at_place(self, place: Place) -> NetRefusal
        ensures { result ≡ at_place self place }
    {
        NetRefusal {
            code: self.code(),
            section: place.section,
            number: place.number,
            key: None,
        }
    }
}

/// A place of a file: its top, or a table of one of its arrays.
#[derive(Clone, Copy, Debug)]
pub struct Place {
    /// The section.
    pub section: Section,
    /// The number of the table in its array, counted from 1; at the top it is 0.
    pub number: u32,
}

impl Place {
    /// The file as a whole.
    pub const TOP: Place = Place {
        section: Section::Top,
        number: 0,
    };
}
