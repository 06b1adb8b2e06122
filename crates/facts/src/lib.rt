// What the calls may take for granted once their tests have passed (specs/Facts), and how a promise goes through a chain of refusals
// (specs/Refusals). There is no code here.

#![tactic(auto)]
