// Charts that are made of others: two side by side.
#![tactic(auto)]

mod pair;

pub use pair::Pair;
