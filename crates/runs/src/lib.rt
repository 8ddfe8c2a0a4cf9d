// No code: what a run of a trace is and what is claimed of it stands in specs/, and is proved in proofs/.
#![tactic(auto)]
