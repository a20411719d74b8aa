// What it means that a contract leaves one possible outcome: specs/One.antt. It has no code.
#![tactic(auto)]
