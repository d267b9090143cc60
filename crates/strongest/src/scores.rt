// The stretches read, each judged against the best so far, in whole numbers that stay below 2^54.

ghost use Rattle.std.specs.Prelude.{◌≡◌, ◌+◌, ◌-◌, ◌*◌, ◌^◌, ◌≤◌, ◌<◌, pos, ◌-ℤ◌, length};
ghost use Rattle.strongest.specs.Strongest.{largest};
ghost use Rattle.strongest.specs.Terms.Reading.{nothing, judged, gap_of};

use crate::refusals::largest;

/// A stretch; its score is `gain` - `loss`, in units of 2^-32.
#[derive(Clone, Copy)]
pub struct Scored {
    /// Its number of places.
    pub size: usize,
    /// The ln entries of its places.
    pub gain: u64,
    /// T for each place, and its f entry.
    pub loss: u64,
}

/// What stretches are scored by, all in units of 2^-32.
#[derive(Clone, Copy)]
pub struct Scoring<'a> {
    /// T, below 16.
    pub threshold: u64,
    /// The ln table: w + 1 entries or more, 1 to w below 16.
    pub ln: &'a [u64],
    /// The f table: w + 2 entries or more, 1 to w below 1,048,576.
    pub f: &'a [u64],
}

impl<'a> Scoring<'a> {
    /// The largest of the ln entries 1..w.
    pub fn largest_ln(&self, w: usize) -> u64
        ensures { result ≡ largest self.now.ln.now w }
    {
        largest(self.ln, w)
    }
}

/// What was read of the places so far.
#[derive(Clone, Copy)]
pub struct Reading {
    /// The ln entries that all of them gain.
    pub gain: u64,
    /// The best stretch.
    pub best: Scored,
}

impl Reading {
    /// Nothing is read yet.
    pub fn new() -> Self
        ensures { result ≡ nothing }
    {
        Self {
            gain: 0,
            best: Scored {
                size: 0,
                gain: 0,
                loss: 0,
            },
        }
    }

    /// One place more, of which the stretch has now `size`: it gains `value` more, and the stretch loses `loss`.
    #[tactic(auto, unfolding(crate::specs::Terms::Reading::judged))]
    pub fn judged(self, size: usize, value: u64, loss: u64) -> Self
        requires gain_small { self.gain < 9007199254740992 }
        requires value_small { value < 9007199254740992 }
        requires loss_small { loss < 9007199254740992 }
        requires best_gain_small { self.best.gain < 9007199254740992 }
        requires best_loss_small { self.best.loss < 9007199254740992 }
        ensures { result ≡ judged self size value loss }
    {
        let gain = self.gain + value;
        let best = self.best;
        if (size == 1) | (best.gain + loss <= gain + best.loss) {
            return Self {
                gain,
                best: Scored { size, gain, loss },
            };
        }
        Self { gain, best }
    }
}

/// By how much a stretch that was not read can score more than the best read: each of the `unread` places can add `rise`.
pub fn gap_of(reading: Reading, steps: usize, unread: usize, rise: u64, threshold: u64) -> u64
    requires gain_small { reading.gain < 9007199254740992 }
    requires best_gain_small { reading.best.gain < 9007199254740992 }
    requires best_loss_small { reading.best.loss < 9007199254740992 }
    requires steps_small { steps ≤ 65535 }
    requires unread_small { unread ≤ 65535 }
    requires rise_small { rise < 68719476736 }
    requires threshold_small { threshold < 68719476736 }
    ensures { result ≡ gap_of reading steps unread rise threshold }
{
    if unread == 0 {
        return 0;
    }
    let high = reading.gain + (unread as u64) * rise;
    let low = (steps as u64) * threshold;
    (high + reading.best.loss).saturating_sub(low + reading.best.gain)
}

/// gain - loss as a signed number.
pub fn difference(gain: u64, loss: u64) -> i64
    requires gain_small { gain < 9007199254740992 }
    requires loss_small { loss < 9007199254740992 }
    ensures { result ≡ pos gain -ℤ pos loss }
{
    (gain as i64) - (loss as i64)
}
