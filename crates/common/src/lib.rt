// What the rooms of the house share: what a score is, and what a refusal says.
#![tactic(auto)]

mod refusal;
mod score;

pub use refusal::{Carried, Fault, Refusal};
pub use score::is_score;
