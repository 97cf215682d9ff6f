// What the promises of the public jobs say together, for every input and every lent memory: a theory, with no code.
#![tactic(auto)]
