// No code: steps of walks by hand, for any crate whose functions the borrow checker does not cover.
#![tactic(auto)]
