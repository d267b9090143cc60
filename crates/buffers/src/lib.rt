// What lent buffers hold after something was written to them: definitions and laws, no code.

#![tactic(auto)]
