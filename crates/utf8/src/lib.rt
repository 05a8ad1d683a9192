// RFC 3629: is this byte string UTF-8?
#![tactic(auto)]

ghost use Rattle.std.specs.Prelude.{◌≡◌, ◌≤◌, ◌∷◌, [], length, replicate};
ghost use Rattle.utf8.specs.Syntax.{is_utf8, octets, passes, tail};
ghost use Rattle.utf8.specs.Steps.{After};

pub fn is_utf8(s: &[u8]) -> bool
    ensures { result ≡ is_utf8 s.now }
{
    let mut left = s;
    while let [first, rest @ ..] = after_ascii(left) {
        let Some(after) = after_char(*first, rest) else {
            return false;
        };
        left = after;
    }
    true
}

// What follows the octets below 80 that s begins with, passed over by twos; one may be left.
fn after_ascii(mut s: &[u8]) -> &[u8]
    ensures same { passes [] s.now ≡ passes [] result.now }
    ensures no_longer { length result.now ≤ length s.now }
{
    while let [0..=0x7F, 0..=0x7F, rest @ ..] = s {
        s = rest;
    }
    s
}

// What follows the character whose first octet is `first`, or none where there is no character.
// Octets below 80 answer first and then the row of two octets, since most are; there is one arm for each further row of the RFC's syntax.
fn after_char(first: u8, rest: &[u8]) -> Option<&[u8]>
    ensures { After [] (first ∷ rest.now) result }
{
    if first < 0x80 {
        return Some(rest);
    }
    if let 0xC2..=0xDF = first {
        return after_tails(rest, 0x80, 0xBF, 0);
    }
    match first {
        0xE0 => after_tails(rest, 0xA0, 0xBF, 1),
        0xE1..=0xEC => after_tails(rest, 0x80, 0xBF, 1),
        0xED => after_tails(rest, 0x80, 0x9F, 1),
        0xEE..=0xEF => after_tails(rest, 0x80, 0xBF, 1),
        0xF0 => after_tails(rest, 0x90, 0xBF, 2),
        0xF1..=0xF3 => after_tails(rest, 0x80, 0xBF, 2),
        0xF4 => after_tails(rest, 0x80, 0x8F, 2),
        _ => None,
    }
}

// What follows an octet from `low` to `high` and `more` octets from 80 to BF.
fn after_tails(s: &[u8], low: u8, high: u8, more: usize) -> Option<&[u8]>
    ensures { After (octets low high ∷ replicate more tail) s.now result }
{
    let [second, others @ ..] = s else {
        return None;
    };
    if *second < low || high < *second {
        return None;
    }
    let (tails, rest) = others.split_at_checked(more)?;
    tails
        .iter()
        .all(|b| matches!(b, 0x80..=0xBF))
        .then_some(rest)
}
