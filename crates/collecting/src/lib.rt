// The types of a text that is read, collected by number (document 02, request 2026-08): what is kept while reading is the tidy form of what the text says.
#![tactic(auto)]

mod interning; // types by rows: an equal one is found, or the row is added where there is room
