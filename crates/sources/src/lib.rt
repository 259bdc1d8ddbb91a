// The three sources as one type, for programs that learn only when they run which one it is.
#![tactic(auto)]

use gauges::Gauges;
use measure::Measure;
use scoring::Count;

#[derive(Clone, Copy, Debug, PartialEq)]
pub enum AnySource {
    Gauges(Gauges),
    Measure(Measure),
    Count(Count),
}
