#![tactic(auto)]

// What the schedule program prints on any text, and demands 2 and 3 (specs/Printed). There is no code here.
