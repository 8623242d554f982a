// Staged sheets of accepted settings: the look at one, the plan of a change, what it needs, and the plan carried out. Assumes nothing.
#![tactic(auto)]

pub mod carried;
pub mod layout;
pub mod planned;
pub mod seen;
