// No code: what is claimed of every history of calls stands in specs/, and is proved in proofs/.
#![tactic(auto)]
