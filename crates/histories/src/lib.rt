// What calls in a row do (condition C, reconnection): this crate has no functions, only definitions and what is proved of them.
#![tactic(auto)]
