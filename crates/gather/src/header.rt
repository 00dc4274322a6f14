// The user data header of a short message (GSM 03.40, 9.2.3.24): a byte with its length, then elements, each a number, a
// length and a body; behind the header stands the part.
ghost use Rattle.std.specs.Prelude.{◌≡◌, ◌+◌, ◌*◌};
ghost use Rattle.gather.specs.Header.{heading_of, walked_of, element_of, placed_of, judged_of};

use crate::refusal::Refusal;

// Port addressing with 16-bit ports (element 05).
#[derive(Clone, Copy, PartialEq, Eq, Debug)]
pub struct Ports {
    pub destination: u16,
    pub originator: u16,
}

// Concatenation (element 00): which message, of how many parts, and which of them.
#[derive(Clone, Copy, PartialEq, Eq, Debug)]
pub struct Place {
    pub reference: u8,
    pub total: u8,
    pub place: u8,
}

// What the header says. The part begins at the number given.
#[derive(Clone, Copy, PartialEq, Eq, Debug)]
pub enum Heading {
    // without concatenation, or of total 1
    Alone(Ports, usize),
    Part(Ports, usize, Place),
}

// The elements noted so far: of two alike the last.
#[derive(Clone, Copy)]
pub(crate) struct Noted {
    pub ports: Option<Ports>,
    pub place: Option<Place>,
}

// The header of any bytes; 19.
pub fn read(message: &[u8]) -> Result<Heading, Refusal>
    ensures exact { result ≡ heading_of message.now }
{
    let Some((size, rest)) = message.split_first() else {
        return Err(Refusal::Header);
    };
    let size = usize::from(*size);
    let Some((header, _)) = rest.split_at_checked(size) else {
        return Err(Refusal::Header);
    };
    judged(walked(header)?, size + 1)
}

// All elements of the header h, from the front.
fn walked(h: &[u8]) -> Result<Noted, Refusal>
    ensures { result ≡ walked_of h.now }
{
    let mut noted = Noted {
        ports: None,
        place: None,
    };
    let mut rest = h;
    while let [number, size, more @ ..] = rest {
        let Some((body, next)) = more.split_at_checked(usize::from(*size)) else {
            return Err(Refusal::Header);
        };
        noted = element(noted, *number, body)?;
        rest = next;
    }
    if rest.is_empty() {
        Ok(noted)
    } else {
        Err(Refusal::Header)
    }
}

// One element noted: 05 and 00 by their bodies, which must be of 4 and of 3 bytes; others are skipped.
fn element(noted: Noted, number: u8, body: &[u8]) -> Result<Noted, Refusal>
    ensures { result ≡ element_of noted number body.now }
{
    match number {
        5 => {
            let [a, b, c, d] = body else {
                return Err(Refusal::Header);
            };
            let ports = Some(Ports {
                destination: u16::from_be_bytes([*a, *b]),
                originator: u16::from_be_bytes([*c, *d]),
            });
            Ok(Noted { ports, ..noted })
        }
        0 => {
            let [reference, total, place] = body else {
                return Err(Refusal::Header);
            };
            let place = Some(Place {
                reference: *reference,
                total: *total,
                place: *place,
            });
            Ok(Noted { place, ..noted })
        }
        _ => Ok(noted),
    }
}

// What the elements of a header say together, with the part at `start`.
fn judged(noted: Noted, start: usize) -> Result<Heading, Refusal>
    ensures { result ≡ judged_of noted start }
{
    match (noted.ports, noted.place) {
        (None, _) => Err(Refusal::Header),
        (Some(ports), None) => Ok(Heading::Alone(ports, start)),
        (Some(ports), Some(place)) => placed(ports, start, place),
    }
}

// What a concatenation says: one of several parts, or a total of 1, which is a message by itself.
fn placed(ports: Ports, start: usize, place: Place) -> Result<Heading, Refusal>
    ensures { result ≡ placed_of ports start place }
{
    if 11 < place.total {
        return Err(Refusal::Header);
    }
    if place.place == 0 || place.total < place.place {
        return Err(Refusal::Header);
    }
    if place.total == 1 {
        return Ok(Heading::Alone(ports, start));
    }
    Ok(Heading::Part(ports, start, place))
}
