// Worked rows (specs/Rows.antt): small cases in which a rule of papers 01 and 02, misread, gives another answer. One proof goes over all of them, against the
// definitions and the calls' contracts (proofs/RowsHold.antt). There is no code here.
#![tactic(auto)]
