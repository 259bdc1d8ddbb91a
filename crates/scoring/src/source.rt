// The trait of sources. A source uses only its settings and the reading, and answers the same reading alike every time.
ghost use Rattle.std.specs.Prelude.{◌≡◌, ℤ, Ok, Result};
ghost use Rattle.common.specs.Score.{Score};
ghost use Rattle.scoring.specs.declared.fault.SourceFault.{SourceFault};

use crate::fault::SourceFault;

pub trait Source {
    type Reading: Copy;

    // the scoring rule
    ghost score: { Self → Self.Reading → Result ℤ SourceFault };

    fn score(&self, reading: Self::Reading) -> Result<i16, SourceFault>
        ensures { result ≡ score self.now reading };

    ghost within: { (s : Self) (reading : Self.Reading) (x : ℤ) → score s reading ≡ Ok x → Score x };
}
