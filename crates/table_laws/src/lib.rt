// What a weather office's table says, and its laws; no code. specs/TableText.antt has a table's
// text as it is written. proofs/RoundTrip.antt: a table written from rows that pass is read as
// exactly those rows. proofs/OnlySo.antt: no other text is read, and a refused one leaves the
// output. proofs/Frost.antt: a table of one line, byte by byte.
#![tactic(auto)]
