// Normal forms as chapter 3 of the Unicode Standard defines them, and that full parts and joined
// text are these. It has no code.
#![tactic(auto)]
