//! Numbers by which keys are looked up: the same keys have the same one.
ghost use Rattle.std.specs.Prelude.{◌≡◌};
ghost use Rattle.local_states.specs.Fingerprint.{with_word};

/// A number made of those of a key.
#[derive(Clone, Copy, Debug, PartialEq, Eq)]
pub struct Fingerprint(pub u64);

impl Fingerprint {
    /// That of nothing.
    pub fn new() -> Fingerprint
        ensures { result.0 ≡ 0 }
    {
        Fingerprint(0)
    }

    /// One with one number more.
    #[tactic(auto, unfolding(crate::specs::Fingerprint::with_word))]
    pub fn with(self, word: u64) -> Fingerprint
        ensures { result.0 ≡ with_word self.0 word }
    {
        let sum = self.0.wrapping_add(word).wrapping_add(1);
        let spread = sum.wrapping_mul(0x9E37_79B9_7F4A_7C15);
        Fingerprint(spread ^ (spread >> 29))
    }
}
