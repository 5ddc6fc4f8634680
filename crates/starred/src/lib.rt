// The starred cases of paper 01, and the example of paper 02's Point 6, in one table (specs/Cases.antt), with one proof over its rows
// (proofs/AllHold.antt); what the calls promise comes to the same (proofs/Promised.antt). There is no code here.
#![tactic(auto)]
