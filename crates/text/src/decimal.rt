// What decimals need beside their digits: the leading zero and the sign.
ghost use Rattle.std.specs.Prelude.{◌≡◌, ◌≤◌, Some};
ghost use Rattle.text.specs.Decimal.{begins};
ghost use Rattle.text.specs.Steps.{negated};

// Whether there is a byte, and no `0` before others.
pub(crate) fn starts(s: &[u8]) -> bool
    ensures { result ≡ begins s.now }
{
    match s {
        [] => false,
        [_] => true,
        [first, ..] => *first != b'0',
    }
}

// The negative of a magnitude up to 2 ^ 63, of which 0 has none.
pub(crate) fn negative(m: u64) -> Option<i64>
    requires { m ≤ 9223372036854775808 }
    ensures { result ≡ negated (Some m) }
{
    if m == 0 {
        return None;
    }
    Some(!((m - 1) as i64))
}
