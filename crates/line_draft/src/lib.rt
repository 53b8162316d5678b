// A line as it is put together, LF not counted. What does not fit is not put, and no byte changes; the length is then past the array's end,
// where nothing more fits.
#![tactic(auto)]

ghost use Rattle.std.specs.Prelude.{◌≡◌, ◌+◌, ◌≤◌, IsTrue};
ghost use Rattle.octets.specs.Bytes.{placed};
ghost use Rattle.text.specs.Decimal.{decimal, signed_decimal};
ghost use Rattle.text.specs.Hex.{hex_digits};
ghost use Rattle.line_draft.specs.Drafts.{no_draft, behind, grown};

// The length of a draft that is full.
pub const FULL: usize = 513;

// The first `len` bytes; 513 where what was put is too long for a line.
#[derive(Clone, Copy)]
pub struct Draft {
    pub bytes: [u8; 512],
    pub len: usize,
}

impl Draft {
    pub fn new() -> Draft
        ensures { result ≡ no_draft }
    {
        Draft {
            bytes: [0u8; 512],
            len: 0,
        }
    }

    // After n bytes more were put, or did not fit.
    fn grow(&mut self, put: bool, n: usize)
        requires { IsTrue put → self.old.len + n ≤ 512 }
        ensures { self.new ≡ grown put n self.old }
    {
        if put {
            self.len += n;
            return;
        }
        self.len = FULL;
    }

    pub fn put(&mut self, s: &[u8])
        ensures { (self.new.len ≡ behind s.now self.old.len self.old.bytes) × (self.new.bytes ≡ placed s.now self.old.len self.old.bytes) }
    {
        let at = self.len;
        let put = octets::copy_at(s, &mut self.bytes, at);
        self.grow(put, s.len());
    }

    pub fn put_number(&mut self, v: u64)
        ensures { (self.new.len ≡ behind (decimal v) self.old.len self.old.bytes) × (self.new.bytes ≡ placed (decimal v) self.old.len self.old.bytes) }
    {
        let at = self.len;
        let put = text::write_number(v, &mut self.bytes, at);
        self.grow(put, text::number_size(v));
    }

    pub fn put_signed(&mut self, v: i64)
        ensures { (self.new.len ≡ behind (signed_decimal v) self.old.len self.old.bytes) × (self.new.bytes ≡ placed (signed_decimal v) self.old.len self.old.bytes) }
    {
        let at = self.len;
        let put = text::write_signed(v, &mut self.bytes, at);
        self.grow(put, text::signed_size(v));
    }

    #[tactic(auto, using(text::proofs::Numerals::length_digits))]
    pub fn put_id(&mut self, id: u32)
        ensures { (self.new.len ≡ behind (hex_digits 7 id) self.old.len self.old.bytes) × (self.new.bytes ≡ placed (hex_digits 7 id) self.old.len self.old.bytes) }
    {
        let at = self.len;
        let put = text::write_id(id, &mut self.bytes, at);
        self.grow(put, 7);
    }

    #[tactic(auto, using(text::proofs::Numerals::length_digits))]
    pub fn put_chk(&mut self, chk: u16)
        ensures { (self.new.len ≡ behind (hex_digits 4 chk) self.old.len self.old.bytes) × (self.new.bytes ≡ placed (hex_digits 4 chk) self.old.len self.old.bytes) }
    {
        let at = self.len;
        let put = text::write_chk(chk, &mut self.bytes, at);
        self.grow(put, 4);
    }
}
