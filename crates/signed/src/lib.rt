// A program that the fence check passes reaches the same states with empty buffers under TSO and under SC: a theory, with no code.
#![tactic(auto)]
