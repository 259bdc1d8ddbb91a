// Sources: what turns a reading into a score, or into a fault that says why not.
#![tactic(auto)]

mod count;
mod fault;
mod range;
mod source;

pub use count::Count;
pub use fault::{SourceFault, SourceSettingFault};
pub use range::{admit, is_in_range};
pub use source::Source;
