// Document 01, "The datagram": version 7, read.
#![tactic(auto)]

ghost use Rattle.std.specs.Prelude.{◌≡◌, ◌≤◌, length, drop};
ghost use Rattle.octets.specs.Field.{num};
ghost use Rattle.layout.specs.declared.Datagram.{Datagram};
ghost use Rattle.datagram.specs.Answer.{says, after_length, read_of, part_of};
ghost use Rattle.datagram.specs.Groups.{says_with};

use layout::Datagram;
use refusals::Refusal;

mod fields;

// The message, and where the payload stands in the lent datagram.
#[derive(Clone, Copy)]
pub struct DatagramRead {
    pub message: Datagram,
    pub payload_at: usize,
    pub payload_len: usize,
}

// Reads a whole datagram.
#[tactic(auto, using(crate::proofs::Whole::not_version))]
pub fn read_datagram(d: &[u8]) -> Result<DatagramRead, Refusal>
    ensures { says result ≡ read_of d.now }
{
    if d.is_empty() {
        return Err(Refusal::NotVersion7);
    }
    if d[0] != 7 {
        return Err(Refusal::NotVersion7);
    }
    fields::read_message(d)
}

// Where the payload stands, and its length: behind the fields, which end at `at`, its length, then the payload, and nothing after it.
fn find_payload(d: &[u8], at: usize) -> Result<(usize, usize), Refusal>
    requires { at ≤ length d.now }
    ensures { (m : Datagram) → says_with m result ≡ after_length d.now m at ((num 4).parse (drop at d.now)) }
{
    let rest = &d[at..];
    let Some((v, k)) = octets::read::<u32>(rest) else {
        return Err(Refusal::DatagramMalformed);
    };
    let len = v as usize;
    if refusals::LONGEST_PAYLOAD < len {
        return Err(Refusal::PayloadTooLong);
    }
    if rest.len() - k != len {
        return Err(Refusal::DatagramMalformed);
    }
    Ok((at + k, len))
}

// The part of the lent datagram that the payload occupies; none where it does not lie in the datagram.
#[tactic(auto, unfolding(crate::specs::Answer::part_of))]
pub fn payload(d: &[u8], at: usize, len: usize) -> &[u8]
    ensures { result.now ≡ part_of d.now at len }
{
    if d.len() < at || d.len() - at < len {
        return &d[..0];
    }
    &d[at..at + len]
}
