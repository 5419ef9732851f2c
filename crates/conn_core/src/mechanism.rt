//! The mechanisms of authentication (RFC 4505, RFC 4616).
ghost use Rattle.std.specs.Prelude.{◌≡◌};
ghost use Rattle.std.specs.Option.{option_map};
ghost use Rattle.conn_core.specs.Mechanism.{takes_start, is_answer, is_plain, after_zero};

use octet_reading::{Octets, Text};

/// Whether a start-ok is taken: by ANONYMOUS, or by PLAIN with a name.
pub(crate) fn takes_start(mechanism: &Option<Text>, response: &Option<Octets>) -> bool
    ensures { result ≡ takes_start mechanism.now response.now }
{
    match mechanism {
        Some(name) => {
            let name = name.as_slice();
            name == b"ANONYMOUS".as_slice() || name == b"PLAIN".as_slice() && is_answer(response)
        }
        None => false,
    }
}

/// Whether there is a response to PLAIN, and it is of its form.
fn is_answer(response: &Option<Octets>) -> bool
    ensures { result ≡ is_answer response.now }
{
    match response {
        Some(octets) => is_plain(octets.as_slice()),
        None => false,
    }
}

/// Whether octets are three parts, parted by two octets 00, of which the second has a length.
fn is_plain(octets: &[u8]) -> bool
    ensures { result ≡ is_plain octets.now }
{
    let Some(name) = after_zero(octets) else {
        return false;
    };
    let Some(password) = after_zero(name) else {
        return false;
    };
    name.first() != Some(&0) && after_zero(password).is_none()
}

/// The octets behind the first octet 00; none where there is none.
fn after_zero(octets: &[u8]) -> Option<&[u8]>
    ensures { option_map (λ rest. rest.now) result ≡ after_zero octets.now }
{
    let mut rest = octets;
    loop {
        let Some((first, more)) = rest.split_first() else {
            return None;
        };
        if *first == 0 {
            return Some(more);
        }
        rest = more;
    }
}
