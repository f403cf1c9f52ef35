// The customer's demands, and document 01's twelve cases, as statements over the public calls
// (specs/), with their proofs (proofs/). It has no code.
#![tactic(auto)]
