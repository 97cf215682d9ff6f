// Reachability in any transition system: a theory, with no code. It stands in specs/ and knows nothing of machines.
#![tactic(auto)]
