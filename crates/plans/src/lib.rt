// A plan (how each byte of a call is moved, as numbers): what any numbers say as one, which plan a description has, and that it moves what the description
// says. Definitions and theorems, no code.
#![tactic(auto)]
