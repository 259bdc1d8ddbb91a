// Why a source declines a reading, and why one cannot be made.
ghost use Rattle.scoring.specs.Faults.{source_refusal, source_setting_refusal};

use common::{Carried, Fault, Refusal};

// Why a reading is declined.
#[derive(Clone, Copy, Debug, PartialEq)]
pub enum SourceFault {
    NotANumber,
    // the reading, below the range
    Below(f64),
    // the reading, above the range
    Above(f64),
    // the quotient of a reading, whose nearest whole number is no score
    OffScale(f64),
    // the difference of a count and its centre, which is no score
    OffCount(i32),
}

impl Fault for SourceFault {
    ghost refusal = { source_refusal };

    fn refusal(&self) -> Refusal {
        match *self {
            SourceFault::NotANumber => Refusal::bare(10),
            SourceFault::Below(reading) => Refusal::carrying(11, Carried::Value(reading)),
            SourceFault::Above(reading) => Refusal::carrying(12, Carried::Value(reading)),
            SourceFault::OffScale(quotient) => Refusal::carrying(13, Carried::Value(quotient)),
            SourceFault::OffCount(difference) => {
                Refusal::carrying(14, Carried::Difference(difference))
            }
        }
    }
}

// Why a source cannot be made.
#[derive(Clone, Copy, Debug, PartialEq, Eq)]
pub enum SourceSettingFault {
    // a setting that is not finite, or out of its range
    OutOfRange,
    // limits that do not strictly rise
    NotRising,
    // scores out of order, or out of their range
    ScoresOutOfOrder,
}

impl Fault for SourceSettingFault {
    ghost refusal = { source_setting_refusal };

    fn refusal(&self) -> Refusal {
        Refusal::bare(match self {
            SourceSettingFault::OutOfRange => 1,
            SourceSettingFault::NotRising => 2,
            SourceSettingFault::ScoresOutOfOrder => 3,
        })
    }
}
