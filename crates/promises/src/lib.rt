// The contracts of the run, the mirrored pass and the precedence pass on lent ranges, the proofs that the cores meet them,
// and the laws about a whole search; no code.
#![tactic(auto)]
