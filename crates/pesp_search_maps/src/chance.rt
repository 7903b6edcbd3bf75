//! Pseudorandom numbers, the same in each run, so that a search can be repeated.

/// A pseudorandom generator (Marsaglia's xorshift with 64 bits).
#[derive(Clone, Copy)]
pub(crate) struct Chance {
    // Never 0, which the shifts would keep at 0.
    state: u64,
}

impl Chance {
    pub(crate) fn new() -> Chance {
        Chance {
            state: 0x9E37_79B9_7F4A_7C15,
        }
    }

    pub(crate) fn number(&mut self) -> u64 {
        self.state ^= self.state << 13;
        self.state ^= self.state >> 7;
        self.state ^= self.state << 17;
        self.state
    }

    /// A number below the bound; 0 if the bound is 0.
    pub(crate) fn number_below(&mut self, bound: usize) -> usize {
        let number = (self.number() >> 33) as usize;
        if bound == 0 { 0 } else { number % bound }
    }

    /// A residue other than 0.
    pub(crate) fn residue(&mut self, period: u16) -> u16 {
        let most = u64::from(period.saturating_sub(1).max(1));
        ((self.number() >> 33) % most) as u16 + 1
    }
}
