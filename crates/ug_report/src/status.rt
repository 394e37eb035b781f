//! How a run ended.

ghost use Rattle.std.specs.Prelude.{◌≡◌, true};
ghost use Rattle.ug_report.specs.Statuses.{row_of, status_text, is_fixed};

use ug_types::{ByteList, Key, PeerId};

/// How a run ended: as it should, or for which cause.
#[derive(PartialEq, Eq, Drop)]
pub enum Status {
    /// All events were read, and no session was lost.
    Ok,
    /// The words are no command.
    Usage,
    /// The configuration is refused: the number of the refusal, and the way to the field.
    Config {
        number: u8,
        field: ByteList,
    },
    /// The events could not be read.
    ReadFault,
    /// The report could not be written.
    ReportFault,
    /// A wire could not be made.
    SiteFault,
    /// Memory ran out.
    NoMemory,
    /// A limit of the input was passed.
    TooLong,
    /// All events were read, and a session was lost: the first, by its peer, counted from 0, and its number.
    Lost {
        peer: PeerId,
        session: u32,
    },
    /// A stream has a fault: which, and where it lies, counted in bytes from the start of the stream.
    Malformed {
        cause: u8,
        offset: u64,
    },
    /// A session isn't right: which, and its first breach, by its kind, the message at which it is, counted from 1, and the
    /// route that it is about, where it is about one.
    Refuted {
        peer: PeerId,
        session: u32,
        kind: u8,
        message: u64,
        key: Option<Key>,
    },
    /// A line of a report isn't clear: the first, counted from 1.
    Unclear {
        line: u64,
    },
}

impl Status {
    /// The number with which a program exits.
    pub fn number(&self) -> u8
        ensures { result ≡ (row_of self.now).number }
    {
        match self {
            Status::Ok => 0,
            Status::Usage => 1,
            Status::Config { .. } => 2,
            Status::ReadFault => 3,
            Status::ReportFault => 4,
            Status::SiteFault => 5,
            Status::NoMemory => 6,
            Status::TooLong => 7,
            Status::Lost { .. } => 8,
            Status::Malformed { .. } => 9,
            Status::Refuted { .. } => 10,
            Status::Unclear { .. } => 11,
        }
    }

    /// The status's line of the report, where it is always the same. It takes no memory.
    #[tactic(auto, unfolding(crate::specs::Statuses::status_text))]
    pub fn text(&self) -> &'static [u8]
        requires { is_fixed self.now ≡ true }
        ensures { result.now ≡ status_text self.now }
    {
        match self {
            Status::Ok => b"",
            Status::Usage => b"status 1 usage\n",
            Status::ReadFault => b"status 3 read\n",
            Status::ReportFault => b"",
            Status::SiteFault => b"status 5 site\n",
            Status::NoMemory => b"status 6 memory\n",
            Status::TooLong => b"status 7 too-long\n",
            Status::Config { .. }
            | Status::Lost { .. }
            | Status::Malformed { .. }
            | Status::Refuted { .. }
            | Status::Unclear { .. } => unreachable!(),
        }
    }
}
