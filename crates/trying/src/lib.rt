// What the programs that try and measure theories share: random sides and calls, what a plain reference answers to them,
// how a tower compares, and what a put and a question cost. Assumes that the bounds of random rows are small, as the
// oracle does.
#![tactic(auto)]

pub mod dice;
pub mod measure;
pub mod oracle;
mod reference;
pub mod tally;
pub mod trial;
