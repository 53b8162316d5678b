// The parts that callsigns and destinations are made of.
ghost use Rattle.std.specs.Prelude.{◌≡◌, ◌≤◌, length};
ghost use Rattle.callsigns.specs.Runs.{run};
ghost use Rattle.callsigns.specs.Callsign.{alnum};
ghost use Rattle.callsigns.specs.Suffix.{suffix_of};
ghost use Rattle.callsigns.specs.Destination.{app_byte};

// Whether a byte is a letter or digit.
#[tactic(auto, unfolding(crate::specs::Callsign::alnum))]
fn is_alnum(x: u8) -> bool
    ensures { result ≡ alnum x }
{
    matches!(x, b'0'..=b'9' | b'A'..=b'Z' | b'a'..=b'z')
}

// Whether a byte may stand in an app's name.
#[tactic(auto, unfolding(crate::specs::Destination::app_byte))]
fn is_app_byte(x: u8) -> bool
    ensures { result ≡ app_byte x }
{
    is_alnum(x) || matches!(x, b'-' | b'_' | b'.')
}

// How many letters or digits a text begins with.
#[tactic(auto, unfolding(crate::specs::Runs::run))]
pub(crate) fn call_run(s: &[u8]) -> usize
    ensures { (result ≡ length (run alnum s.now)) × (result ≤ length s.now) }
{
    s.iter().take_while(|x| is_alnum(**x)).count()
}

// How many bytes of an app's name a text begins with.
#[tactic(auto, unfolding(crate::specs::Runs::run))]
pub(crate) fn app_run(s: &[u8]) -> usize
    ensures { (result ≡ length (run app_byte s.now)) × (result ≤ length s.now) }
{
    s.iter().take_while(|x| is_app_byte(**x)).count()
}

// Reads what follows a callsign's base.
#[tactic(auto, unfolding(crate::specs::Suffix::suffix_of, crate::specs::Callsign::suffix, crate::specs::Callsign::suffix_ssid))]
pub(crate) fn read_suffix(t: &[u8]) -> Option<u8>
    ensures { result ≡ suffix_of t.now }
{
    match t {
        [] => Some(0),
        [b'-', x @ b'1'..=b'9'] => Some(*x - b'0'),
        [b'-', b'1', x @ b'0'..=b'5'] => Some(10 + (*x - b'0')),
        _ => None,
    }
}
