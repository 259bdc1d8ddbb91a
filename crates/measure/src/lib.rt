// Measure: a reading is scored by its difference from a target, in units, to the nearest whole number.
#![tactic(auto)]

ghost use Rattle.std.specs.Prelude.{◌≡◌, true};
ghost use Rattle.common.specs.Made.{Made};
ghost use Rattle.measure.specs.Measure.{measure_score, nearest_score};
ghost use Rattle.measure.specs.Settings.{is_unit, measure_fault};
ghost use Rattle.scoring.specs.Range.{in_range};
ghost use Rattle.std.proofs.Common.{rules};

use scoring::{Source, SourceFault, SourceSettingFault, admit, is_in_range};

// 1/1024
const LEAST_UNIT: f64 = 0.0009765625;

#[derive(Clone, Copy, Debug, PartialEq)]
pub struct Measure {
    target: f64,
    unit: f64,
    ghost range: { in_range target ≡ true },
    ghost scale: { is_unit unit ≡ true },
}

impl Measure {
    // Refusal 1 where the target or the unit is out of its range.
    pub fn new(target: f64, unit: f64) -> Result<Measure, SourceSettingFault>
        ensures { Made (measure_fault target unit) (λ m. (m.target ≡ target) × (m.unit ≡ unit)) result }
    {
        if is_in_range(target) && is_in_range(unit) && unit >= LEAST_UNIT {
            Ok(Measure { target, unit })
        } else {
            Err(SourceSettingFault::OutOfRange)
        }
    }
}

impl Source for Measure {
    type Reading = f64;

    ghost score = { λ m. measure_score m.target m.unit };

    ghost within = { Prim.search rules };

    fn score(&self, reading: f64) -> Result<i16, SourceFault> {
        admit(reading)?;
        let difference = reading - self.target;
        let quotient = difference / self.unit;
        nearest_score(quotient).ok_or(SourceFault::OffScale(quotient))
    }
}

// The whole number nearest to a quotient, halves away from zero, where it is a score. 1000.5 is as near to 1001 as to 1000,
// and goes to 1001.
fn nearest_score(quotient: f64) -> Option<i16>
    ensures { result ≡ nearest_score quotient }
{
    if -1000.5 < quotient && quotient < 1000.5 {
        let whole = quotient.round();
        // a cast that the check proves to lose nothing; a saturating one would hide a loss. It takes no -0.0
        if whole == 0.0 {
            Some(0)
        } else {
            Some(whole as i16)
        }
    } else {
        None
    }
}
