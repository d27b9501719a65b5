// The theory of traces over any system of states and letters. It has no code: the definitions are
// in specs/, their laws in proofs/.

#![tactic(auto)]
