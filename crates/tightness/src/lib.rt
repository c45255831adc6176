// Every public function's contract leaves one outcome: specs/Tight.antt says what that means, proofs/ has one theorem for each function. There
// is no code here.
#![tactic(auto)]
