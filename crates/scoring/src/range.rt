// The range of what is measured: from -1,000,000 to 1,000,000, both ends inside.
ghost use Rattle.std.specs.Prelude.{◌≡◌};
ghost use Rattle.scoring.specs.Range.{admitted, in_range};

use crate::fault::SourceFault;

const MILLION: f64 = 1_000_000.0;

pub fn is_in_range(x: f64) -> bool
    ensures { result ≡ in_range x }
{
    // two comparisons: with `contains` of a range of floats the proof did not close
    -MILLION <= x && x <= MILLION
}

// Whether a measured reading is taken: refusal 10 where it is no number, then 11 below the range, then 12 above it.
pub fn admit(reading: f64) -> Result<(), SourceFault>
    ensures { result ≡ admitted reading }
{
    if reading.is_nan() {
        Err(SourceFault::NotANumber)
    } else if reading < -MILLION {
        Err(SourceFault::Below(reading))
    } else if reading > MILLION {
        Err(SourceFault::Above(reading))
    } else {
        Ok(())
    }
}
