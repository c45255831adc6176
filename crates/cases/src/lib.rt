// The cases of document 01, "Cases to prove", from description bytes: specs/Cases.antt says what each comes to. There is no code here.
#![tactic(auto)]
