ghost use Rattle.std.specs.Prelude.{◌≡◌, ℕ, ◌<◌, true, false};
ghost use Rattle.map_plan.specs.Members.{holds, Added};

// A set of places below 320, one bit to a place.
#[derive(Clone, Copy)]
pub struct Places {
    // Live places are words of bits, so that a press allocates nothing.
    words: [u64; 5],
}

impl Places {
    pub(crate) fn none() -> Places
        ensures { (k : ℕ) → holds result k ≡ false }
    {
        Places { words: [0; 5] }
    }

    pub(crate) fn has(&self, place: usize) -> bool
        requires { place < 320 }
        ensures { result ≡ holds self.now place }
    {
        self.words[place / 64] >> (place % 64) & 1 == 1
    }

    pub(crate) fn add(&mut self, place: usize)
        requires { place < 320 }
        ensures { Added self.old place true self.new }
    {
        self.words[place / 64] |= 1 << (place % 64);
    }
}
