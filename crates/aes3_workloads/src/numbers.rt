//! Numbers that look random.

ghost use Rattle.std.specs.Prelude.{◌<◌, ◌≤◌, ◌^◌};

/// Marsaglia's xorshift over 64 bits.
#[derive(Clone, Copy)]
pub struct Numbers {
    state: u64,
}

impl Numbers {
    /// The numbers of this seed, in the stream of this number.
    pub fn new(seed: u32, stream: u32) -> Self {
        let mixed = (u64::from(seed) << 32 | u64::from(stream)).wrapping_mul(0x9e37_79b9_7f4a_7c15);
        let mut numbers = Numbers {
            state: mixed ^ mixed >> 29 | 1,
        };
        for _ in 0..8 {
            numbers.next();
        }
        numbers
    }

    /// The next number.
    pub fn next(&mut self) -> u64 {
        let state = self.state ^ self.state << 13;
        let state = state ^ state >> 7;
        self.state = state ^ state << 17;
        self.state
    }

    /// The next number below a bound.
    pub fn below(&mut self, bound: u32) -> u32
        requires { 0 < bound }
        ensures { result < bound }
    {
        ((self.next() >> 32) % u64::from(bound)) as u32
    }
}
