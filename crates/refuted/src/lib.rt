#![tactic(auto)]

// The errors and the hollow versions of document 01, each as a catalogue, with a run of it on which a promise is false (specs/All). There is no code here.
