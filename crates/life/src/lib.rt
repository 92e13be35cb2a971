#![tactic(auto)]

// The whole life of a stripe: a theorem about the calls of `stripe`. It has definitions and laws, and no code.
