// No code: the laws of running a timing diagram from cut to cut, for the crate `sweeps`.
#![tactic(auto)]
