// A store whose way in is open, for the calls that read only.
ghost use Rattle.rules.proofs.Bytes.{Bytes};
ghost use Rattle.running.specs.Scan.{Ready};

use rules::Desk;

// The lengths are right and the desk is sound. That every byte is below 256 a proof knows of a slice that is a parameter, not of one
// in a field. Nothing compares or prints a store.
#[derive(Clone, Copy)]
pub struct Store<'d, 's> {
    pub desk: &'d Desk,
    pub table: &'s [u8],
    pub shelf: &'s [u8],
    pub ghost ready: { Ready desk.now table.now shelf.now },
    pub ghost bytes: { Bytes table.now × Bytes shelf.now },
}
