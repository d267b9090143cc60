// The making of a certificate: a backward scan of its own, over the entries newer than the start, the start, and the entries older than it.

ghost use Rattle.std.specs.Prelude.{◌≡◌, ◌+◌, ◌-◌, ◌^◌, ◌<◌, ◌≤◌, length, get_or, drop, replicate};
ghost use Rattle.letters.specs.Place.{ambiguous};
ghost use Rattle.scans.specs.Terms.Counted.{Counted};
ghost use Rattle.scans.specs.Terms.Run.{as_setup, entries_of, KmersCounted, TablesReach};
ghost use Rattle.scans.specs.Terms.Shape.{Shaped};
ghost use Rattle.scans.specs.Terms.Window.{CountsEntry};
ghost use Rattle.certificates.specs.Terms.Made.{larger, smaller, none_read, read_of, no_middle, middle_of, older_of, certificate_of, Able, Makes, Summed, ReadsNewer, ReadsOlder, Attempts, Certifies};

use scans::{Ring, Setup, count_entry};
use search::{Certificate, DISTANCE};

// A certificate lasts at most this many letters,
const HORIZON: usize = 48;

// is not made for fewer,
const FEWEST: usize = 4;

// nor of a start with fewer entries.
const SHORTEST: usize = 16;

// 2^20, above every gap that is kept; its opposite is a bound of no score at all.
pub const HIGHEST: f64 = 1048576.0;

// At most this many of the newest entries are near.
const NEAR: usize = 48;

// Not `max` and `min` of f64, which test for a NaN and may answer either of 0 and -0.
pub fn larger(a: f64, b: f64) -> f64
    ensures { result ≡ larger a b }
{
    if a < b {
        return b;
    }
    a
}

fn smaller(a: f64, b: f64) -> f64
    ensures { result ≡ smaller a b }
{
    if a < b {
        return a;
    }
    b
}

// Counts entry i, the entries after it being counted, and answers the ln entry of its raised count, 0 if ambiguous.
fn read_entry(setup: &Setup, ring: &Ring, i: usize, scan_counts: &mut [u16]) -> f64
    requires queued { KmersCounted ring.now (length scan_counts.old) × (length ring.now.queue.now < length setup.now.ln.now) × (i < ring.now.len) }
    requires counted { Counted (length scan_counts.old) scan_counts.old (drop (i + 1) (entries_of ring.now)) }
    ensures { CountsEntry setup.now.ln.now scan_counts.old (get_or (entries_of ring.now) i ambiguous) result
        scan_counts.new }
{
    let at = ring.index(i);
    count_entry(scan_counts, setup.ln, ring.queue[at])
}

// What is known of the entries from `at` on: the sum, a bound of all their scores, one of those of the entries that are not near,
// where the near ones begin, and the sum of the near ones' ln entries.
#[derive(Clone, Copy)]
struct Reading {
    at: usize,
    s: f64,
    high: f64,
    far: f64,
    near: usize,
    sum: f64,
}

impl Reading {
    fn new(len: usize) -> Self
        ensures { result ≡ none_read len }
    {
        Self {
            at: len,
            s: 0.0,
            high: -HIGHEST,
            far: -HIGHEST,
            near: len,
            sum: 0.0,
        }
    }

    // Entry i, whose ln entry is v: the sum with it and its score.
    fn read(mut self, i: usize, v: f64, s: f64, score: f64, near: bool) -> Self
        ensures { result ≡ read_of self i v s score near }
    {
        self.at = i;
        self.s = s;
        self.high = larger(self.high, score);
        if near {
            self.near = i;
            self.sum += v;
            return self;
        }
        self.far = larger(self.far, score);
        self
    }
}

// The low entries, each below 0: where the near ones begin, the sum of their ln entries, and a bound of the other ones' scores;
// and a bound of the scores, with the f entries of m places more, of the entries older than these.
#[derive(Clone, Copy)]
struct Middle {
    near: usize,
    h: f64,
    u: f64,
    peak: f64,
}

impl Middle {
    fn new(len: usize) -> Self
        ensures { result ≡ no_middle len }
    {
        Self {
            near: len,
            h: 0.0,
            u: -HIGHEST,
            peak: -HIGHEST,
        }
    }

    // The oldest entry read, with its score ahead: below the peak by at most `reach`, or else all the entries read are low;
    // else no certificate can be made.
    fn read(mut self, a: Reading, ahead: f64, reach: f64) -> Option<Self>
        ensures { result ≡ middle_of self a ahead reach }
    {
        if self.peak - ahead <= reach {
            self.peak = larger(self.peak, ahead);
            return Some(self);
        }
        if a.high < -DISTANCE {
            self.near = a.near;
            self.h = a.sum;
            self.u = a.far;
            self.peak = -HIGHEST;
            return Some(self);
        }
        None
    }

    // The certificate of m letters, of a start that scores above the older ones by the gap; none where the gap,
    // or the bound u of the low scores, is too near 0.
    fn certificate(self, m: usize, len: usize, gap: f64) -> Option<Certificate>
        requires { self.near ≤ len }
        ensures { result ≡ certificate_of self m len gap }
    {
        if (self.u < -DISTANCE) & (DISTANCE <= gap) {
            return Some(Certificate {
                left: m,
                near: len - self.near,
                h: self.h,
                u: self.u,
                gap,
            });
        }
        None
    }
}

// What the entries newer than the start tell; there is no middle where no certificate can be made.
#[derive(Clone, Copy)]
struct Newer {
    reading: Reading,
    middle: Option<Middle>,
}

// Reads the entries newer than the start, from cleared counts, for a certificate of m letters.
fn read_newer(setup: &Setup, start: usize, m: usize, ring: &Ring, scan_counts: &mut [u16]) -> Newer
    requires making { Makes setup.now ring.now (length scan_counts.old) }
    requires start_lt_len { (start < ring.now.len) × (ring.now.len + m ≤ start + setup.now.params.window_size)
        × (scan_counts.old ≡ replicate (length scan_counts.old) 0) }
    ensures { ReadsNewer (as_setup setup.now) (entries_of ring.now) start m result
        scan_counts.new }
{
    let f = setup.f;
    let t = setup.params.score_threshold;
    let mut a = Reading::new(ring.len);
    let mut b = Middle::new(ring.len);
    let reach = setup.params.drop_limit - DISTANCE;
    for i in (start + 1..ring.len).rev() {
        let v = read_entry(setup, ring, i, scan_counts);
        let l = ring.len - i;
        let s = a.s + (v - t);
        a = a.read(i, v, s, s - f[l], l <= NEAR);
        match b.read(a, a.s - f[l + m], reach) {
            Some(c) => b = c,
            None => {
                return Newer {
                    reading: a,
                    middle: None,
                };
            }
        }
    }
    Newer {
        reading: a,
        middle: Some(b),
    }
}

// The entries from `at` on are read: the sum, what the start scores at least above each of those older than it, and whether no older one matters,
// which is asked of the sums: no value hangs on it.
#[derive(Clone, Copy)]
struct Older {
    at: usize,
    s: f64,
    gap: f64,
    done: bool,
}

impl Older {
    // Entry i: the sum with it, and what the start scores above it.
    fn read(mut self, i: usize, s: f64, above: f64, drop_limit: f64) -> Self
        ensures { result ≡ older_of self i s above drop_limit }
    {
        let gap = smaller(self.gap, above);
        self.at = i;
        self.s = s;
        self.gap = gap;
        self.done = (gap < DISTANCE) | (drop_limit + gap < above);
        self
    }
}

// Reads the entries older than the start, the others being counted and s their sum.
fn read_older(setup: &Setup, start: usize, s: f64, ring: &Ring, scan_counts: &mut [u16]) -> Older
    requires making { Makes setup.now ring.now (length scan_counts.old) }
    requires start_lt_len { (start < ring.now.len) × Summed (as_setup setup.now) (drop start (entries_of ring.now)) s
        × Counted (length scan_counts.old) scan_counts.old (drop start (entries_of ring.now)) }
    ensures { ReadsOlder (as_setup setup.now) (entries_of ring.now) start result
        scan_counts.new }
{
    let f = setup.f;
    let p = setup.params;
    let top = s - f[ring.len - start];
    let mut a = Older {
        at: start,
        s,
        gap: HIGHEST,
        done: false,
    };
    for i in (0..start).rev() {
        let v = read_entry(setup, ring, i, scan_counts);
        let t = a.s + (v - p.score_threshold);
        let score = t - f[ring.len - i];
        a = a.read(i, t, top - score, p.drop_limit);
        if a.done {
            return a;
        }
    }
    a
}

// A certificate that is made, or none, and the oldest entry that is counted.
#[derive(Clone, Copy)]
struct Attempt {
    certificate: Option<Certificate>,
    at: usize,
}

// Reads for a certificate of m letters of the start, from cleared counts.
fn make_certificate(
    setup: &Setup,
    start: usize,
    m: usize,
    ring: &Ring,
    scan_counts: &mut [u16],
) -> Attempt
    requires making { Makes setup.now ring.now (length scan_counts.old) }
    requires start_lt_len { (start < ring.now.len) × (ring.now.len + m ≤ start + setup.now.params.window_size)
        × (scan_counts.old ≡ replicate (length scan_counts.old) 0) }
    ensures { Attempts (as_setup setup.now) (entries_of ring.now) start result
        scan_counts.new }
{
    let newer = read_newer(setup, start, m, ring, scan_counts);
    let b = match newer.middle {
        Some(b) => b,
        None => {
            return Attempt {
                certificate: None,
                at: newer.reading.at,
            };
        }
    };
    let v = read_entry(setup, ring, start, scan_counts);
    let s = newer.reading.s + (v - setup.params.score_threshold);
    if b.peak + DISTANCE <= s - setup.f[ring.len - start + m] {
        let older = read_older(setup, start, s, ring, scan_counts);
        return Attempt {
            certificate: b.certificate(m, ring.len, older.gap),
            at: older.at,
        };
    }
    Attempt {
        certificate: None,
        at: start,
    }
}

// Whether certificates are kept for these numbers and tables.
fn is_able(setup: &Setup) -> bool
    requires { 1 < length setup.now.ln.now }
    ensures { Able setup.now.params setup.now.ln.now result }
{
    let p = setup.params;
    let limit = p.drop_limit;
    let drops = (0.0 <= limit) & (limit <= HIGHEST);
    p.usual & ((setup.ln[1] <= 0.0) & ((DISTANCE <= p.score_threshold) & drops))
}

// The certificate of `start`, from cleared counts, which are then those of the entries from `start` on; where there is none, they are cleared again.
#[inline(never)]
pub fn certify(
    setup: &Setup,
    start: usize,
    ring: &Ring,
    scan_counts: &mut [u16],
) -> Option<Certificate>
    requires tables_reach { TablesReach setup.now ring.now (length scan_counts.old) }
    requires queue_len { (length ring.now.queue.now ≡ setup.now.params.window_size) × (start < ring.now.len)
        × (scan_counts.old ≡ replicate (4 ^ setup.now.params.kmer) 0) }
    requires shaped { Shaped setup.now.params setup.now.ln.now setup.now.f.now }
    ensures { Certifies (as_setup setup.now) (entries_of ring.now) start result
        scan_counts.new }
{
    let l = ring.len - start;
    let m = (ring.queue.len() - l).min(HORIZON);
    if (l < SHORTEST) | (m < FEWEST) {
        return None;
    }
    if !is_able(setup) {
        return None;
    }
    let a = make_certificate(setup, start, m, ring, scan_counts);
    if a.certificate.is_some() {
        ring.uncount(a.at, start, scan_counts);
        return a.certificate;
    }
    ring.clear_from(a.at, scan_counts);
    None
}
