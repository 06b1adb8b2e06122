#![tactic(auto)]

// What every catalogue that is reached from make looks like, and that no call on it answers 2. There is no code here.
