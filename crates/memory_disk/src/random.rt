// Numbers by chance, from a seed: the generator splitmix64.
ghost use Rattle.std.specs.Prelude.{◌≡◌, ◌%◌, if◌then◌else◌, nat_eq};
ghost use Rattle.memory_disk.specs.Chances.{mixed, drawn, Drew};

const STEP: u64 = 0x9e37_79b9_7f4a_7c15;

#[derive(Clone, Copy)]
pub struct Random {
    pub state: u64,
}

fn mix(state: u64) -> u64
    ensures { result ≡ mixed state }
{
    let a = (state ^ (state >> 30)).wrapping_mul(0xbf58_476d_1ce4_e5b9);
    let b = (a ^ (a >> 27)).wrapping_mul(0x94d0_49bb_1331_11eb);
    b ^ (b >> 31)
}

impl Random {
    pub fn new(seed: u64) -> Random
        ensures { result.state ≡ seed }
    {
        Random { state: seed }
    }

    pub fn next(&mut self) -> u64
        ensures value { result ≡ drawn self.old }
        ensures state { Drew self.old self.new }
    {
        self.state = self.state.wrapping_add(STEP);
        mix(self.state)
    }

    // A number below n; 0 where n is 0.
    pub fn below(&mut self, n: u64) -> u64
        ensures value { result ≡ (if nat_eq n 0 then 0 else drawn self.old % n) }
        ensures state { Drew self.old self.new }
    {
        self.next().checked_rem(n).unwrap_or(0)
    }
}
