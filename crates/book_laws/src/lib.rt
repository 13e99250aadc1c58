// The text of document 01's book as it is written, and its laws; no code. specs/BookText.antt has
// the text. proofs/RoundTrip.antt: what is written is read as its numbers and run as step 7's list
// of them, and one text is one book's. proofs/OnlySo.antt: only such a text finishes, and 8 to 12
// never refuse a book. proofs/WholeList.antt: the list is the whole one, its checks passed.
// proofs/Balance.antt: demand 3, and the carbon of the answer to the gram. proofs/January.antt:
// January 1852.
#![tactic(auto)]
