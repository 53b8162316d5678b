// Document 01, "Names and fields": the headers of a message, and whether their keys all differ.
#![tactic(auto)]

ghost use Rattle.std.specs.Prelude.{◌≡◌, ◌≤◌, length, take};
ghost use Rattle.octets.specs.Words.{every};
ghost use Rattle.octets.specs.Bytes.{same};
ghost use Rattle.headers.specs.Keys.{all_differ, key_of, keys_of};
ghost use Rattle.headers.specs.Rule.{header, headers};

// A header: the first `key_len` bytes of `key` and the first `value_len` of `value`.
#[derive(Clone, Copy)]
pub struct Header {
    pub key: [u8; 32],
    pub key_len: usize,
    pub value: [u8; 128],
    pub value_len: usize,
}

// The headers of a message: the first `count` of the items.
#[derive(Clone, Copy)]
pub struct Headers {
    pub items: [Header; 8],
    pub count: usize,
}

// Whether two headers have the same key.
#[tactic(auto, unfolding(crate::specs::Keys::key_of))]
fn same_key(a: &Header, b: &Header) -> bool
    ensures { result ≡ same (key_of a.now) (key_of b.now) }
{
    a.key[..a.key_len.min(32)] == b.key[..b.key_len.min(32)]
}

// Whether the headers' keys all differ: the first pair of equal keys ends the search.
pub fn keys_differ(h: Headers) -> bool
    ensures { result ≡ all_differ (keys_of h) }
{
    let n = h.count.min(8);
    let items = &h.items;
    let mut differ = true;
    'pairs: for i in 0..n {
        for j in i + 1..n {
            if same_key(&items[i], &items[j]) {
                differ = false;
                break 'pairs;
            }
        }
    }
    differ
}

// Whether a header's lengths lie in their arrays, its key is a header key and its value a header value.
#[tactic(auto, unfolding(crate::specs::Keys::key_of, crate::specs::Rule::value_of, crate::specs::Rule::header))]
fn is_header(h: &Header) -> bool
    ensures { result ≡ header h.now }
{
    h.key_len <= 32
        && h.value_len <= 128
        && names::is_header_key(&h.key[..h.key_len])
        && names::is_header_value(&h.value[..h.value_len])
}

// Whether each of the first `count` of the items is a header.
fn each_is_header(items: &[Header], count: usize) -> bool
    requires { count ≤ length items.now }
    ensures { result ≡ every header (take count items.now) }
{
    items[..count].iter().all(is_header)
}

// Whether these are headers that a message may have: at most 8, each a header, and the keys all differ.
#[tactic(auto, unfolding(crate::specs::Rule::headers))]
pub fn are_headers(h: Headers) -> bool
    ensures { result ≡ headers h }
{
    if 8 < h.count {
        return false;
    }
    if !each_is_header(&h.items, h.count) {
        return false;
    }
    // The headers are copied for the search: where there are fewer than two, nothing is to be found.
    if h.count < 2 {
        return true;
    }
    keys_differ(h)
}
