// Admission: the whole reading of a sheet.
#![tactic(auto)]

use code_record::Code;
use refusals::Refusal;

// A sheet is admitted, or refused. The record stands beside the answer: all numbers 0 and all rows +I where it is a
// refusal, so that every call refuses the record of a sheet that was refused.
// The empty record is promised, with edits that lose it: so the two stand side by side, and in no `Result<Code, _>`.
#[derive(Clone, Copy)]
pub struct Reading {
    pub answer: Result<(), Refusal>,
    pub code: Code,
}
