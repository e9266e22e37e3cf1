// No code: the buyer's demands as statements about the promises of the exported calls are in specs/, their proofs in proofs/.
#![tactic(auto)]
