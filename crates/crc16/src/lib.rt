// CRC-16/CCITT-FALSE, the check that ends an `ihave` line.
#![tactic(auto)]

ghost use Rattle.std.specs.Prelude.{◌≡◌, ◌<◌};
ghost use Rattle.crc16.specs.Crc.{bits_feed, bits, crc_feed, crc16};

// The register before the first byte.
const START: u16 = 0xFFFF;

// The register after more bytes.
fn feed(crc: u16, s: &[u8]) -> u16
    ensures { result ≡ crc_feed crc s.now }
{
    s.iter().fold(crc, |register, b| byte(register, *b))
}

// The check of a text.
pub fn crc(s: &[u8]) -> u16
    ensures { result ≡ crc16 s.now }
{
    feed(START, s)
}

// The register after one byte more: its upper half meets the byte, its lower half moves up.
fn byte(crc: u16, b: u8) -> u16
    ensures { result ≡ bits_feed crc (bits b) }
{
    let upper = (crc >> 8) ^ u16::from(b);
    from_zero(upper) ^ ((crc % 256) * 256)
}

// The register after one byte where it was 0: eight bits of x^16 + x^12 + x^5 + 1 at once.
fn from_zero(b: u16) -> u16
    requires { b < 256 }
    ensures { result ≡ bits_feed 0 (bits b) }
{
    let x = b ^ (b >> 4);
    (x << 12) ^ (x << 5) ^ x
}
