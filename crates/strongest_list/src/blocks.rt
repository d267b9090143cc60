// Sums over blocks of 64 places: what the places of a block gain, and a bound on what its newest gain beyond T for each.

ghost use Rattle.std.specs.Prelude.{◌≡◌, ◌+◌, ◌*◌, ◌≤◌, ◌<◌};
ghost use Rattle.strongest_list.specs.Terms.Blocks.{added, raised};

// No top stands higher: no sum over a block comes near it.
const HIGH: u64 = 1152921504606846976;

// The places of a block: what they gain, and `top`: what its newest 1, 2 .. places gain, less T for each, is at most `top` less 64 times T.
#[derive(Clone, Copy)]
pub struct Block {
    pub gain: u64,
    pub top: u64,
}

impl Block {
    // A place more at the new end, which gains `value`.
    pub fn added(self, value: u64, threshold: u64) -> Self
        requires gain { self.gain < 1152921504606846976 }
        requires top { self.top ≤ 1152921504606846976 }
        requires value { value < 68719476736 }
        requires threshold { threshold < 68719476736 }
        ensures { result ≡ added self value threshold }
    {
        let top = self.top.max(64 * threshold) + value - threshold;
        Self {
            gain: self.gain + value,
            top: top.min(HIGH),
        }
    }

    // A place that gained `was` gains `is`.
    pub fn raised(self, was: u64, is: u64) -> Self
        requires gain { self.gain < 1152921504606846976 }
        requires top { self.top ≤ 1152921504606846976 }
        requires was { was ≤ self.gain }
        requires is { is < 68719476736 }
        ensures { result ≡ raised self was is }
    {
        let top = self.top + is.saturating_sub(was);
        Self {
            gain: self.gain + is - was,
            top: top.min(HIGH),
        }
    }
}
