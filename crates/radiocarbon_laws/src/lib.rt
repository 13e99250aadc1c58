// Laws of radiocarbon, change 2026-04 of document 02; no code. CarbonAlone.antt (specs and proofs):
// modern grams never touch carbon, in single month calls (Calls.antt), with takings-back among them
// (Fields.antt), in lists (Lists.antt) and in spin-ups (Spins.antt). Bounds.antt: 10 never refuses
// an accepted state afterwards.
#![tactic(auto)]
