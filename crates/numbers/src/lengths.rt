// The lengths of lent buffers.
ghost use Rattle.std.specs.Prelude.{◌&&◌, ◌≡◌, leb};
ghost use Rattle.rules.specs.Refusals.{slots_right, lengths_right};

fn slots_right(bytes: usize, most: usize) -> bool
    ensures { result ≡ slots_right bytes most }
{
    (bytes % 64 == 0) & (1..=most).contains(&(bytes / 64))
}

#[tactic(auto, unfolding(rules::specs::Refusals::lengths_right))]
pub fn lengths_right(desk: usize, table: usize, shelf: usize) -> bool
    ensures { result ≡ lengths_right desk table shelf }
{
    let slots = slots_right(table, 16384);
    let entries = slots_right(shelf, 1048576);
    (desk == 1088) & (slots & entries)
}
