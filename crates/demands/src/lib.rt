// What is promised to the user, and the worked cases of document 01. It has no code:
// proofs/Demands.antt states the main promises and cites their proofs, specs/Cases.antt lists the
// cases.
