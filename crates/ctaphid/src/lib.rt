// CTAPHID as CTAP 2.1 (2021-06-15), section 11.2, has it: definitions in specs/, their laws in proofs/. It has no code.
#![tactic(auto)]
