// The numbers that the node says no with: a name for each number of the table.
#![tactic(auto)]

ghost use Rattle.std.specs.Prelude.{◌≡◌};
ghost use Rattle.refusals.specs.Refusals.{number_of};

// No payload is longer.
pub const LONGEST_PAYLOAD: usize = 4096;

// Why a call was refused.
#[derive(Clone, Copy)]
pub enum Refusal {
    // Line malformed.
    LineMalformed,
    // `chk` differs.
    ChkDiffers,
    // `fmt=d`.
    FormatD,
    // Payload length above 4,096 (line, datagram, id).
    PayloadTooLong,
    // Lent buffer too short for the whole answer.
    BufferTooShort,
    // Datagram empty or first byte not 7.
    NotVersion7,
    // Datagram malformed.
    DatagramMalformed,
    // Originator is no callsign.
    NoCallsign,
    // Stream id malformed.
    StreamIdMalformed,
    // Stale number.
    Stale,
    // Number already held.
    AlreadyHeld,
    // Row full.
    RowFull,
    // Offer on an unknown key, no free row.
    NoFreeRow,
    // No such stream.
    NoSuchStream,
    // Close while something is held.
    StillHolding,
    // Image not one that a save writes.
    NoSavedImage,
    // Fragment: master id malformed, or N, M or length outside its range.
    FragmentMalformed,
    // M differs from the group's.
    OtherTotal,
    // Fragment already held.
    FragmentHeld,
    // No free group.
    NoFreeGroup,
    // Group unknown or incomplete.
    NotComplete,
    // Session closed.
    SessionClosed,
    // Fragment store not 65,536 bytes.
    StoreLength,
    // State of any kind handed in breaks its section's rules.
    StateBroken,
}

impl Refusal {
    // Its number in the table.
    pub fn number(self) -> u8
        ensures { result ≡ number_of self }
    {
        match self {
            Refusal::LineMalformed => 1,
            Refusal::ChkDiffers => 2,
            Refusal::FormatD => 3,
            Refusal::PayloadTooLong => 4,
            Refusal::BufferTooShort => 5,
            Refusal::NotVersion7 => 6,
            Refusal::DatagramMalformed => 7,
            Refusal::NoCallsign => 8,
            Refusal::StreamIdMalformed => 9,
            Refusal::Stale => 10,
            Refusal::AlreadyHeld => 11,
            Refusal::RowFull => 12,
            Refusal::NoFreeRow => 13,
            Refusal::NoSuchStream => 14,
            Refusal::StillHolding => 15,
            Refusal::NoSavedImage => 16,
            Refusal::FragmentMalformed => 17,
            Refusal::OtherTotal => 18,
            Refusal::FragmentHeld => 19,
            Refusal::NoFreeGroup => 20,
            Refusal::NotComplete => 21,
            Refusal::SessionClosed => 22,
            Refusal::StoreLength => 23,
            Refusal::StateBroken => 40,
        }
    }
}
