// Versions, slots in use, masks and cards, in words.
ghost use Rattle.std.specs.Prelude.{◌≤◌, length};

use layout::Word;
use rules::{Desk, Position, Ticket};
use std::io;

// The 52 bytes of a body: start day, kind, the host's first byte as it stands, which need be no text.
fn body(rt: &impl Print, body: &[u8]) -> io::Result<()>
    requires { 52 ≤ length body.now }
{
    print!(rt; " ({}, kind {}, ", u32::at(body, 0), body[4])?;
    rt.write_all(&body[5..6])?;
    print!(rt; ")")
}

// A body that is given whole.
pub fn given(rt: &impl Print, bytes: &[u8]) -> io::Result<()> {
    if bytes.len() == 52 {
        body(rt, bytes)?;
    }
    Ok(())
}

// The 56 bytes of a version: number and body.
pub fn version(rt: &impl Print, bytes: &[u8]) -> io::Result<()>
    requires { 56 ≤ length bytes.now }
{
    print!(rt; "{}", u32::at(bytes, 0))?;
    body(rt, &bytes[4..])
}

// The slots or entries in use.
pub fn in_use(rt: &impl Print, what: &str, mask: &str, bytes: &[u8]) -> io::Result<()> {
    for (i, slot) in bytes.chunks_exact(64).enumerate() {
        if u32::at(slot, 0) != 0 {
            print!(rt; "    {what} {i}: ")?;
            version(rt, slot)?;
            println!(rt; ", {mask} {:x}", u64::at(slot, 56))?;
        }
    }
    Ok(())
}

pub fn masks(rt: &impl Print, desk: &Desk) -> io::Result<()> {
    let masks = desk::masks_at(desk);
    println!(rt;
        "    stable {:x}, active {:x}, local active {:x}",
        masks.stable, masks.active, masks.local
    )
}

// The cards with a scan on them.
pub fn cards(rt: &impl Print, desk: &Desk) -> io::Result<()> {
    for p in 0..64 {
        let card = desk::card_at(desk, Position(p));
        if card.ticket != Ticket::NONE {
            println!(rt;
                "    position {p}: ticket {}, place {}, handed {}",
                u32::from(card.ticket),
                card.place,
                card.handed
            )?;
        }
    }
    Ok(())
}
