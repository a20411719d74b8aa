// Both ends over whole runs, whoever lends the buffers: statements in specs/, their proofs in proofs/. It has no code.
#![tactic(auto)]
