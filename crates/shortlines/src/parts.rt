// What the state line says of the gathering.
use gather::{Gatherer, Slot};
use std::io;
use std::io::Write;

// ` parts=REF:HAVE/TOTAL,..` by rising reference, `-` for none.
pub fn put_parts<W: Write>(g: Gatherer, out: &mut W) -> io::Result<()> {
    write!(out, " parts=")?;
    let mut before = "";
    let mut from: u16 = 0;
    for _ in 0..4 {
        let Some(slot) = next_held(&g.slots, from) else {
            break;
        };
        write!(
            out,
            "{before}{}:{}/{}",
            slot.reference,
            slot.held_places(),
            slot.total
        )?;
        before = ",";
        from = u16::from(slot.reference).saturating_add(1);
    }
    if before.is_empty() {
        return write!(out, "-");
    }
    Ok(())
}

// What is held of the least reference from a number on: no two slots hold the same.
fn next_held(slots: &[Slot], from: u16) -> Option<&Slot> {
    slots
        .iter()
        .filter(|slot| slot.total != 0 && from <= u16::from(slot.reference))
        .min_by_key(|slot| slot.reference)
}
