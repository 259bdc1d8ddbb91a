// The arguments of programs: what the command line asks for.
#![tactic(auto)]

mod request;
mod words;

pub use request::{Request, request_of};
