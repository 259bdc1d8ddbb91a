// Looking back: the alarm word that stored readings, or bare scores, have as a whole.
#![tactic(auto)]

mod fault;
mod stored;

pub use fault::LookBackFault;
pub use stored::{look_back, look_back_scores};
