// Document 01, 'Calls and refusals', 'Proved examples' and 'Tempting and wrong': definitions and their laws alone, in
// specs/ and proofs/. Outcome: what follows from an effect. Sound: the soundness test. Calls: power-up, frame and event.

#![tactic(auto)]
