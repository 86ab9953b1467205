// The report: a function from the bytes of a sheet and its syndromes to the bytes of a report. Its definitions are
// in specs/.
#![tactic(auto)]
