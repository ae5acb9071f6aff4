// What holds after any calls: theorems about the rules of document 01, independent of the code. The statements stand in
// specs/Promises.antt, their proofs in proofs/.

#![tactic(auto)]
