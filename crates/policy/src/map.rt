// Which ownership record a word has. The maps cast by `as usize`, since std has no From from u32 to usize.
ghost use Rattle.std.specs.Prelude.{◌≡◌, ℕ, ◌<◌};
ghost use Rattle.policy.specs.Maps.{by_quotient, by_remainder, by_scatter};
ghost use Rattle.std.proofs.Common.{rules};

pub trait OrecMap {
    ghost maps: { Self → ℕ → ℕ };

    fn orec_of(&self, word: u32) -> usize
        ensures { result ≡ maps self.now word };

    // There are at most 4,096 words and always 64 records.
    ghost below: { (m : Self) (b : ℕ) → b < 4096 → maps m b < 64 };
}

#[derive(Clone, Copy)]
pub struct Remainder;

impl OrecMap for Remainder {
    ghost maps = { λ _ word. by_remainder word };

    ghost below = { Prim.search rules };

    fn orec_of(&self, word: u32) -> usize {
        (word % 64) as usize
    }
}

#[derive(Clone, Copy)]
pub struct Quotient;

impl OrecMap for Quotient {
    ghost maps = { λ _ word. by_quotient word };

    ghost below = { Prim.search rules };

    fn orec_of(&self, word: u32) -> usize {
        (word / 64) as usize
    }
}

#[derive(Clone, Copy)]
pub struct Scatter;

impl OrecMap for Scatter {
    ghost maps = { λ _ word. by_scatter word };

    ghost below = { Prim.search rules };

    fn orec_of(&self, word: u32) -> usize {
        (word.wrapping_mul(2_654_435_761) / 67_108_864) as usize
    }
}
