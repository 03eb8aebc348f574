ghost use Rattle.std.specs.Prelude.{◌≡◌, ◌-◌, ◌≤◌, ◌<◌, ◌^◌, [], ◌∷◌, Some, None, if◌then◌else◌};
ghost use Rattle.spec_text.specs.Words as words;
ghost use Rattle.text_words.specs.Fitting as text_words_fitting;

use ax_types::limits::{MAX_CLOCK, MAX_LIFE, MAX_PACKET, MAX_TIMEOUT};
use ax_types::{ClientId, Life, NodeId};

/// The value of a decimal digit.
fn digit(b: u8) -> Option<u64>
    ensures { result ≡ (if words.is_digit b then Some (b - 48) else None) }
{
    if b'0' <= b && b <= b'9' {
        Some((b - b'0') as u64)
    } else {
        None
    }
}

/// The number that a further digit makes, where it has 64 bits.
fn with_digit(n: u64, b: u8) -> Option<u64>
    ensures { result ≡ text_words_fitting.fitting (words.number_on n (b ∷ [])) }
{
    n.checked_mul(10)?.checked_add(digit(b)?)
}

/// The number that decimal digits make, where it has 64 bits.
fn digits(word: &[u8]) -> Option<u64>
    ensures { result ≡ text_words_fitting.fitting (words.number_on 0 word.now) }
{
    let mut n: u64 = 0;
    for b in word {
        n = with_digit(n, *b)?;
    }
    Some(n)
}

/// A number of 64 bits, without a sign and without leading zeros.
fn spelled(word: &[u8]) -> Option<u64>
    ensures { result ≡ text_words_fitting.fitting (words.number_of word.now) }
{
    match word {
        [] => None,
        [b'0', _, ..] => None,
        _ => digits(word),
    }
}

/// A number from `low` to `high`, in decimal, without a sign and without leading zeros.
pub fn number(word: &[u8], low: u64, high: u64) -> Option<u64>
    ensures { result ≡ words.number_within low high word.now }
{
    let n = spelled(word)?;
    if low <= n && n <= high { Some(n) } else { None }
}

/// A signed number of 64 bits, in decimal, below 0 with a `-` before its digits, without leading zeros.
pub fn signed(word: &[u8]) -> Option<i64>
    ensures { result ≡ words.signed_of word.now }
{
    let (first, rest) = word.split_first()?;
    if *first == b'-' {
        let n = number(rest, 1, 1 << 63)?;
        Some(-1 - (n - 1) as i64)
    } else {
        Some(number(word, 0, i64::MAX as u64)? as i64)
    }
}

/// A node of a cluster of `nodes` nodes, by its number.
pub fn node(word: &[u8], nodes: u8) -> Option<NodeId>
    requires { nodes ≤ 9 }
    ensures { result ≡ words.node_of nodes word.now }
{
    NodeId::new(number(word, 1, nodes as u64)? as u8)
}

/// One of `clients` clients, by its number.
pub fn client(word: &[u8], clients: u8) -> Option<ClientId>
    requires { clients ≤ 16 }
    ensures { result ≡ words.client_of clients word.now }
{
    ClientId::new(number(word, 1, clients as u64)? as u8)
}

/// The setting of a clock: 0 to 1,000,000,000,000,000 units of log time.
pub fn time(word: &[u8]) -> Option<u64>
    ensures { result ≡ words.time_of word.now }
{
    number(word, 0, MAX_CLOCK)
}

/// The timeout of sessions: 1 to 1,000,000,000 units of log time.
pub fn timeout(word: &[u8]) -> Option<u64>
    ensures { result ≡ words.timeout_of word.now }
{
    number(word, 1, MAX_TIMEOUT)
}

/// The number of a packet, or of the bytes of one that arrive: 0 to 1,000,000,000.
pub fn packet_number(word: &[u8]) -> Option<u64>
    ensures { result ≡ words.packet_number_of word.now }
{
    number(word, 0, MAX_PACKET)
}

/// The life of a map's entry: 1 to 1,000,000,000 units of log time.
pub fn life(word: &[u8]) -> Option<Life>
    ensures { result ≡ words.life_of word.now }
{
    Life::new(number(word, 1, MAX_LIFE)?)
}
