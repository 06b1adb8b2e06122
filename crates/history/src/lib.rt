#![tactic(auto)]

// The history of a catalogue: what is promised of a run (specs/Definition1, Notes, Statements), and its proof for the machine of versions. There is no code here.
