// Control charts over scores: the trait that every chart meets, with its laws, and the list that a look-back reads.
#![tactic(auto)]

mod chart;
mod fault;
mod scores;
mod word;

pub use chart::{Chart, Size};
pub use fault::{ChartFault, SettingFault};
pub use scores::{LatestFirst, MOST_SCORES, Scores};
pub use word::alarms;
