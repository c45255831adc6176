// The Intel386 supplement's calls as a paper (request 2026-12): this crate has no functions, only definitions and what is proved of them.
#![tactic(auto)]
