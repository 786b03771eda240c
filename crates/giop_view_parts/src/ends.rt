//! The names of endpoints and objects, in the form that users read.

ghost use Rattle.std.specs.Prelude.{◌<◌};

use giop_lines::number;
use std::alloc::AllocError;

/// An endpoint.
#[derive(Clone, Copy, Debug, Drop)]
pub struct Endpoint<'a> {
    /// The address, without the brackets around an IPv6 address. It is empty if nothing is known.
    pub address: &'a str,
    /// Its port.
    pub port: Option<u64>,
}

impl<'a> Endpoint<'a> {
    /// The endpoint that the text of a line names.
    pub fn of_text(end: &'a str) -> Endpoint<'a> {
        let (address, port) = match end.rsplit_once(':') {
            None => (end, None),
            Some((address, port)) => (address, number(port.as_bytes())),
        };
        let address = match address.strip_prefix('[') {
            None => address,
            Some(inner) => inner.strip_suffix(']').unwrap_or(inner),
        };
        Endpoint { address, port }
    }
}

/// Appends octets, given by two hexadecimal digits each, in the form of a line's text.
pub fn append_hex_as_text(text: &mut Vec<u8>, digits: &[u8]) -> Result<(), AllocError> {
    for pair in digits.chunks(2) {
        let [high, low] = pair else {
            break;
        };
        let octet = hex_digit_value(*high) * 16 + hex_digit_value(*low);
        if (0x20..=0x7e).contains(&octet) && octet != b'"' && octet != b'\\' {
            text.push(octet)?;
        } else {
            text.extend_from_slice(&[b'\\', b'x', *high, *low])?;
        }
    }
    Ok(())
}

/// The number of a hexadecimal digit.
fn hex_digit_value(octet: u8) -> u8
    ensures { result < 16 }
{
    match octet {
        b'0'..=b'9' => octet - b'0',
        b'a'..=b'f' => octet - b'a' + 10,
        _ => 0,
    }
}
