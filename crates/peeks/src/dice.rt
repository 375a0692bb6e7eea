// A linear congruential generator: the same numbers at every run.
ghost use Rattle.std.specs.Prelude.{◌<◌};

#[derive(Debug, Drop)]
pub struct Dice(u32);

impl Dice {
    pub fn seeded(seed: u32) -> Self {
        Dice(seed)
    }

    // A number below `sides`.
    pub fn roll(&mut self, sides: u32) -> u32
        requires { 0 < sides }
        ensures { result < sides }
    {
        self.0 = self.0.wrapping_mul(1103515245).wrapping_add(12345) % 2147483648;
        self.0 / 65536 % sides
    }

    pub fn byte(&mut self) -> u8 {
        self.roll(256) as u8
    }
}
