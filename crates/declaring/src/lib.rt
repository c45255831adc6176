// A description's named part as a declaration in C (document 02, request 2026-08): the text as a definition, its length, and that reading it gives the tidy form of that part. There is no code here.
#![tactic(auto)]
