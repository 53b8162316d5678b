// SHA-1 (FIPS 180-4) of a message that comes in pieces, and the message id.
#![tactic(auto)]

ghost use Rattle.std.specs.Prelude.{◌≡◌};
ghost use Rattle.sha1_digest.specs.Machine.{fresh, fed_all, finished};
ghost use Rattle.sha1_digest.specs.Id.{salt_bytes, id_number, message_id, says};

mod pieces;

use refusals::{LONGEST_PAYLOAD, Refusal};
use sha1_block::Hash;

// A hash that is being fed. Every value is a state: the bytes of `block` that wait are the first `total % 64`.
#[derive(Clone, Copy)]
pub struct Sha1 {
    pub h: Hash,
    pub block: [u8; 64],
    pub total: u64,
}

impl Sha1 {
    // Nothing was fed.
    pub fn new() -> Sha1
        ensures { result ≡ fresh }
    {
        Sha1 {
            h: Hash {
                a: 0x67452301,
                b: 0xEFCDAB89,
                c: 0x98BADCFE,
                d: 0x10325476,
                e: 0xC3D2E1F0,
            },
            block: [0u8; 64],
            total: 0,
        }
    }

    // A message id begins with its salt, where one is given.
    pub fn salted(salt: Option<i64>) -> Sha1
        ensures { result ≡ fed_all fresh (salt_bytes salt) }
    {
        let Some(value) = salt else {
            return Sha1::new();
        };
        let mut bytes = [0u8; 8];
        octets::put_i64(value, &mut bytes, 0);
        Sha1::new().feed_all(&bytes)
    }

    // More bytes. What fills the waiting block goes there; whole blocks after it are taken from the piece itself; the rest waits.
    pub fn feed_all(self, s: &[u8]) -> Sha1
        ensures { result ≡ fed_all self s.now }
    {
        let room = ((64 - self.total % 64) % 64) as usize;
        if s.len() < room {
            return pieces::put(self, s);
        }
        let started = pieces::put(self, &s[..room]);
        pieces::from_start(started, &s[room..])
    }

    // The digest of what was fed.
    pub fn finish(self) -> Hash
        ensures { result ≡ finished self }
    {
        let total = self.total;
        if total % 64 < 56 {
            return pieces::close(pieces::mark(self, 56), total);
        }
        let zeros = [0u8; 56];
        pieces::close(pieces::put(pieces::mark(self, 64), &zeros), total)
    }

    // The digest's first 28 bits: the id, where what was fed is a salt and a payload that has one.
    pub fn first_28_bits(self) -> u32
        ensures { result ≡ id_number (finished self) }
    {
        self.finish().a >> 4
    }
}

// The id of a payload that is there as a whole: a number of 28 bits.
pub fn message_id(salt: Option<i64>, payload: &[u8]) -> Result<u32, Refusal>
    ensures { says result ≡ message_id salt payload.now }
{
    if LONGEST_PAYLOAD < payload.len() {
        return Err(Refusal::PayloadTooLong);
    }
    Ok(Sha1::salted(salt).feed_all(payload).first_28_bits())
}
