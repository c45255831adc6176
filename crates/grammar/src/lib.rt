// The grammar of C prototypes (document 02, request 2026-08; docs/GRAMMAR.md), and what reading a text by it means: definitions and what is proved of them. There is no code here.
#![tactic(auto)]
