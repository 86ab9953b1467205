// The decoder: syndromes and corrections.
#![tactic(auto)]

// The correction stands in the output buffer; or no error of weight at most t has the syndrome.
#[derive(Clone, Copy)]
pub enum Decoded {
    Correction,
    None,
}
