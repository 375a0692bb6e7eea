// Numbers and slots in lent bytes: the one place where bytes are read and written.
#![tactic(auto)]

ghost use Rattle.std.specs.Prelude.{◌≡◌, ℕ, ◌+◌, ◌≤◌, List, length, replicate};
ghost use Rattle.rules.specs.Bytes.{field, u32_at, u64_at};
ghost use Rattle.rules.proofs.Bytes.{Bytes};
ghost use Rattle.layout.specs.Puts.{put, put32, put64};
ghost use Rattle.layout.specs.Laws.{length-put32, length-put64, put32-back, put64-back};

// A number as lent bytes hold it, from an offset on. Its two bodies differ in the type alone, whose bytes std gives by methods of
// each type and by no trait.
pub trait Word: Copy {
    ghost width: { ℕ };

    ghost spelt: { List ℕ → ℕ → Self };

    ghost written: { List ℕ → ℕ → Self → List ℕ };

    fn at(s: &[u8], at: usize) -> Self
        requires { at + width ≤ length s.now }
        ensures { result ≡ spelt s.now at };

    fn put_at(self, s: &mut [u8], at: usize)
        requires { at + width ≤ length s.old }
        ensures { s.new ≡ written s.old at self };

    // A write leaves the length, and what is spelt there, written there, leaves every byte.
    ghost keeps_length: { (l : List ℕ) (i : ℕ) (x : Self) → i + width ≤ length l → length (written l i x) ≡ length l };

    ghost puts_back: { (l : List ℕ) (i : ℕ) → Bytes l → i + width ≤ length l → written l i (spelt l i) ≡ l };
}

impl Word for u32 {
    ghost width = { 4 };

    ghost spelt = { u32_at };

    ghost written = { put32 };

    ghost keeps_length = { λ l i x. length-put32 l i x };

    ghost puts_back = { λ l i b h. put32-back l i b h };

    fn at(s: &[u8], at: usize) -> u32 {
        u32::from_le_bytes(part(s, at))
    }

    fn put_at(self, s: &mut [u8], at: usize) {
        put_part(s, at, &self.to_le_bytes());
    }
}

impl Word for u64 {
    ghost width = { 8 };

    ghost spelt = { u64_at };

    ghost written = { put64 };

    ghost keeps_length = { λ l i x. length-put64 l i x };

    ghost puts_back = { λ l i b h. put64-back l i b h };

    fn at(s: &[u8], at: usize) -> u64 {
        u64::from_le_bytes(part(s, at))
    }

    fn put_at(self, s: &mut [u8], at: usize) {
        put_part(s, at, &self.to_le_bytes());
    }
}

// N bytes from an offset on.
fn part<const N: usize>(s: &[u8], at: usize) -> [u8; N]
    requires { at + N ≤ length s.now }
    ensures { result ≡ field N at s.now }
{
    s[at..at + N].try_into().unwrap()
}

fn put_part<const N: usize>(s: &mut [u8], at: usize, bytes: &[u8; N])
    requires { at + N ≤ length s.old }
    ensures { s.new ≡ put s.old at bytes.now }
{
    s[at..at + N].copy_from_slice(bytes);
}

// N bytes of src written over dst.
pub fn copy<const N: usize>(dst: &mut [u8], to: usize, src: &[u8], from: usize)
    requires { (to + N ≤ length dst.old) × (from + N ≤ length src.now) }
    ensures { dst.new ≡ put dst.old to (field N from src.now) }
{
    let bytes: [u8; N] = part(src, from);
    put_part(dst, to, &bytes);
}

// A freed slot or entry becomes 64 zero bytes.
pub fn clear_slot(dst: &mut [u8], at: usize)
    requires { at + 64 ≤ length dst.old }
    ensures { dst.new ≡ put dst.old at (replicate 64 0) }
{
    put_part(dst, at, &[0; 64]);
}
