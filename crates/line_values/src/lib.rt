// A value of a line's keys that is no single number or digits: N/M.
#![tactic(auto)]

ghost use Rattle.std.specs.Prelude.{◌≡◌};
ghost use Rattle.line_values.specs.Values.{part_of};

#[derive(Clone, Copy)]
pub struct Part {
    pub index: u16,
    pub total: u16,
}

// N/M.
#[tactic(auto, unfolding(crate::specs::Values::part_of, crate::specs::Values::is_part))]
pub fn read_part(v: &[u8]) -> Option<Part>
    ensures { result ≡ part_of v.now }
{
    if !tokens::has_byte(v, b'/') {
        return None;
    }
    let index = text::read_number(tokens::before_byte(v, b'/'), 65535)?;
    let total = text::read_number(tokens::after_byte(v, b'/'), 65535)?;
    Some(Part {
        index: index as u16,
        total: total as u16,
    })
}
