// The face: exactly the calls that a host makes and the types that they take and answer, under one name each.
// docs/CALLS.md says what each call is lent, what it answers and leaves, and what it refuses. Methods come with their type.
#![tactic(auto)]

// ---- why a call is refused
pub use refusals::{LONGEST_PAYLOAD, Refusal};

// ---- bytes alone
pub use crc16::crc;
pub use sha1_block::Hash;
pub use sha1_digest::{Sha1, message_id};
pub use utf8::well_formed;

// ---- what a message carries
pub use envelope::{AddressText, CallText, Envelope, Fragment, Stream, StreamText};
pub use headers::{Header, Headers};

// ---- the ihave line
pub use line::{Line, read_line};
pub use line_writer::write_line;

// ---- the datagram
pub use datagram::{DatagramRead, payload, read_datagram};
pub use datagram_writer::write_datagram;
pub use layout::{Datagram, Hops};

// ---- the receiving session
pub use session::{LONGEST_REPLY, Opened, Step, feed, open_session};
pub use talk::{Ending, Event, Session, Terms};

// ---- the stream table and its image
pub use image::{Loaded, load, save};
pub use keys::Key as StreamKey;
pub use places::Held;
pub use rows::{Given, Row};
pub use slots::Slot;
pub use streams::{Served as TableServed, Shown, Table, Taken as TableTaken};

// ---- fragments
pub use fragments::{add_fragment, collect_group};
pub use groupcalls::{Collected, Served as GroupsServed, Standing, standing_of, sweep_groups};
pub use groupkeys::Key as GroupKey;
pub use groups::{Group, Groups, Piece, STORE};
