// The walk over a whole datagram (01, "The record on the wire"): 1 to 1,400 bytes, 1 to 8 records,
// each read from the part of the datagram where it begins. The framing of all of it is judged
// before anything is acted on.
ghost use Rattle.std.specs.Prelude.{◌≡◌};
ghost use Rattle.record.specs.Datagram.{walk_of};

use crate::reader::{Fault, Record, read};

// How many bytes a datagram may have.
const LONGEST: usize = 1400;

// Why a datagram is refused as a whole: the fault, and the offset of the record at fault.
#[derive(Clone, Copy)]
pub struct Misframed {
    pub fault: Fault,
    pub at: usize,
}

// What the walk found: `count` records in the order of the datagram, each with its start; the
// places after them are blank. A count beside eight places, since memory is fixed.
#[derive(Clone, Copy)]
pub struct Walk {
    pub count: usize,
    pub records: [Record; 8],
}

pub fn walked(d: &[u8]) -> Result<Walk, Misframed>
    ensures { result ≡ walk_of d.now }
{
    if d.is_empty() || LONGEST < d.len() {
        return Err(Misframed {
            fault: Fault::Size,
            at: 0,
        });
    }
    let mut records = [Record::BLANK; 8];
    let mut at: usize = 0;
    for count in 0..8 {
        if at == d.len() {
            return Ok(Walk { count, records });
        }
        // no `map_err` and `?`: what its closure promises stays closed to the proof
        let found = match read(&d[at..]) {
            Ok(found) => found,
            Err(fault) => return Err(Misframed { fault, at }),
        };
        records[count] = Record { start: at, ..found };
        at += found.used;
    }
    if at < d.len() {
        return Err(Misframed {
            fault: Fault::Ninth,
            at,
        });
    }
    Ok(Walk { count: 8, records })
}
