// The stabilizer group of a code's generators: its definitions are in specs/, the theorems in proofs/; its functions
// are in the crates `columns`, `reduced_rows`, `independent_rows`, `elimination`, `membership` and `canonical`.
#![tactic(auto)]
