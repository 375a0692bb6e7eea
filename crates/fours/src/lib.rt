// Numbers gone through four at a time: a search has one test for four of them.
#![tactic(auto)]

ghost use Rattle.std.specs.Prelude.{true, false, ◌≤◌};
ghost use Rattle.fours.specs.Between.{Between, Lowest};

// Past the blocks of four numbers from `from` on, below `end`, of which none is hit.
pub fn past<F: Fn(usize) -> bool>(from: usize, end: usize, hit: F) -> usize
    requires ordered { from ≤ end }
    requires callable { Between (F.pre hit) from end }
    ensures { (from ≤ result) × (result ≤ end) × Between (λ i. F.post hit i false) from result }
{
    let blocks = (end - from) / 4;
    for block in 0..blocks {
        let i = from + 4 * block;
        let a = hit(i);
        let b = hit(i + 1);
        let c = hit(i + 2);
        let d = hit(i + 3);
        if (a | b) | (c | d) {
            return i;
        }
    }
    from + 4 * blocks
}

// The lowest number from `from` on, below `end`, that is hit.
pub fn lowest<F: Fn(usize) -> bool>(from: usize, end: usize, hit: F) -> Option<usize>
    requires ordered { from ≤ end }
    requires callable { Between (F.pre hit) from end }
    ensures { Lowest (λ i. F.post hit i false) (λ i. F.post hit i true) from end result }
{
    for i in past(from, end, &hit)..end {
        if hit(i) {
            return Some(i);
        }
    }
    None
}
