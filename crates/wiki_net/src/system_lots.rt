// Words from the system's source of randomness.
ghost use Rattle.std.specs.Prelude.{None};

use farm_base::Lots;
use std::random::RandomSource;

/// Words that the system draws. If it does not give one, the next is made from the last.
#[derive(Drop)]
pub struct SystemLots<'a, R> {
    rt: &'a R,
    last: u64,
}

impl<'a, R: RandomSource> SystemLots<'a, R> {
    /// Lots of which none was drawn.
    pub fn new(rt: &'a R) -> Self {
        SystemLots { rt, last: 0 }
    }
}

impl<R: RandomSource> Lots for SystemLots<'_, R> {
    ghost exposed = { λ _. None };

    fn word(&mut self) -> u64 {
        let mut bytes = [0u8; 8];
        self.last = match self.rt.fill_bytes(&mut bytes) {
            Ok(()) => u64::from_be_bytes(bytes),
            Err(_) => stirred(self.last),
        };
        self.last
    }
}

// A linear step over all 64-bit words, which comes back to a word only after all others.
fn stirred(word: u64) -> u64 {
    word.wrapping_mul(6_364_136_223_846_793_005)
        .wrapping_add(1_442_695_040_888_963_407)
}
