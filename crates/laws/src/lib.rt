// The general laws: lists, ranges, strings, tables, machines, writing to a buffer. It knows nothing
// of Hangul nor of any encoding, and has no code: definitions stand in specs/, laws in proofs/.
#![tactic(auto)]
