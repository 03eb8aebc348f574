ghost use Rattle.std.specs.Prelude.{◌≡◌, ◌<◌, ◌^◌};
ghost use Rattle.spec_gen.specs.Generator as generators;

/// The row of draws that a number sets off.
#[derive(Drop)]
pub struct Draws {
    pub state: u32,
    ghost small: { state < 2 ^ 31 },
}

impl Draws {
    /// Draws a number below `limit`.
    pub fn draw(&mut self, limit: u32) -> u32
        requires { 0 < limit }
        ensures state { self.new.state ≡ generators.next_state self.old.state }
        ensures drawn { result ≡ generators.drawn self.new.state limit }
        ensures below { result < limit }
    {
        let next = (1_103_515_245 * u64::from(self.state) + 12_345) % 2_147_483_648;
        self.state = next as u32;
        self.state / 65_536 % limit
    }
}
