// Definitions and laws only: no code runs here.
#![tactic(auto)]
