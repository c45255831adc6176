// Writing a description's named part as a declaration in C (document 02, request 2026-08): its length first, so that 25 is decided before anything is written.
#![tactic(auto)]

pub use calls::write_declaration;

mod type_text; // the text of a type
mod declaration_text; // the text of the whole declaration
mod text_lengths; // the length of each type's text, and of the whole
mod calls; // both: write_declaration
