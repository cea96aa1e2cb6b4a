// Worked cases of engine calls over each bottom, as tests. Nothing here is for other crates; what the tests are written in
// stands outside of them, so that its contracts are proved of it and edits of it are tried.
#![tactic(auto)]

pub mod script;
#[cfg(test)]
mod tests;
