// Why a chart declines.
ghost use Rattle.charts.specs.Faults.{chart_refusal, setting_refusal};

use common::{Fault, Refusal};

// Why a step or a look-back is declined.
#[derive(Clone, Copy, Debug, PartialEq, Eq)]
pub enum ChartFault {
    // the chart has no size
    NoSize,
    // a state not below the size, or a number that is no score
    OutOfRange,
    // more than 4,096 scores
    TooLong,
}

impl Fault for ChartFault {
    ghost refusal = { chart_refusal };

    fn refusal(&self) -> Refusal {
        Refusal::bare(match self {
            ChartFault::NoSize => 5,
            ChartFault::OutOfRange => 6,
            ChartFault::TooLong => 15,
        })
    }
}

// Why a leaf cannot be made.
#[derive(Clone, Copy, Debug, PartialEq, Eq)]
pub enum SettingFault {
    // a setting out of its range
    OutOfRange,
}

impl Fault for SettingFault {
    ghost refusal = { setting_refusal };

    fn refusal(&self) -> Refusal {
        match self {
            SettingFault::OutOfRange => Refusal::bare(4),
        }
    }
}
