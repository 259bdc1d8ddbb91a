// Gauges: a reading is scored by where it stands among four limits that rise.
#![tactic(auto)]

ghost use Rattle.std.specs.Prelude.{◌≡◌, true};
ghost use Rattle.common.specs.Made.{Made};
ghost use Rattle.gauges.specs.Gauges.{gauge_score};
ghost use Rattle.gauges.specs.Settings.{gauges_fault, in_order, is_rising, within_range};
ghost use Rattle.gauges.specs.GaugesLaws.{gauges_within};

use scoring::{Source, SourceFault, SourceSettingFault, admit, is_in_range};

// The limits, from the lowest, and the scores: a next to the middle, b at the ends.
#[derive(Clone, Copy, Debug, PartialEq)]
pub struct Gauges {
    p: f64,
    q: f64,
    r: f64,
    s: f64,
    a: i16,
    b: i16,
    ghost range: { within_range p q r s ≡ true },
    ghost order: { is_rising p q r s ≡ true },
    ghost scores: { in_order a b ≡ true },
}

impl Gauges {
    // Refusal 1 where a limit is out of its range, then 2 where the limits do not rise, then 3 where the scores are not in
    // order.
    pub fn new(p: f64, q: f64, r: f64, s: f64, a: i16, b: i16) -> Result<Gauges, SourceSettingFault>
        ensures { Made (gauges_fault p q r s a b)
            (λ g. (g.p ≡ p) × (g.q ≡ q) × (g.r ≡ r) × (g.s ≡ s) × (g.a ≡ a) × (g.b ≡ b)) result }
    {
        if !(is_in_range(p) && is_in_range(q) && is_in_range(r) && is_in_range(s)) {
            return Err(SourceSettingFault::OutOfRange);
        }
        if !(p < q && q < r && r < s) {
            return Err(SourceSettingFault::NotRising);
        }
        if !(1 <= a && a < b && b <= 1000) {
            return Err(SourceSettingFault::ScoresOutOfOrder);
        }
        Ok(Gauges { p, q, r, s, a, b })
    }
}

impl Source for Gauges {
    type Reading = f64;

    ghost score = { λ g. gauge_score g.p g.q g.r g.s g.a g.b };

    ghost within = { λ g reading x e. gauges_within g.p g.q g.r g.s g.a g.b g.scores reading x e };

    // A reading on a limit is in the outer of its two zones.
    fn score(&self, reading: f64) -> Result<i16, SourceFault> {
        admit(reading)?;
        let score = if reading <= self.p {
            -self.b
        } else if reading <= self.q {
            -self.a
        } else if reading < self.r {
            0
        } else if reading < self.s {
            self.a
        } else {
            self.b
        };
        Ok(score)
    }
}
