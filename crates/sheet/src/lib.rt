// The code sheet: what its lines are, and how they are read and written. Its definitions are in specs/. The functions
// that read and write it stand in small crates above this one, which README.md lists.
#![tactic(auto)]
