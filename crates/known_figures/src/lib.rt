// Document 01's known figures that are marked (P), proved together as one statement about the
// definitions; no functions. specs/Figures.antt has the statement, proofs/Figures.antt the theorem.
// SettledYears.antt (specs and proofs): two years that show what settles one (change 2026-05).
#![tactic(auto)]
