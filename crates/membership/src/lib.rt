// Membership in the group of a record's generators, with its sign.
#![tactic(auto)]

ghost use Rattle.std.specs.Prelude.{◌≡◌};
ghost use Rattle.membership.specs.Answers.{kind_member, membership};

use code_record::Code;
use letters::Sign;
use pauli::Pauli;
use reduced_rows::{Kind, kind_of};
use refusals::Refusal;

// Membership of the row + with given masks, from what it is to the canonical generators.
fn member_kind(kind: Kind) -> Option<Sign>
    ensures { result ≡ kind_member kind }
{
    match kind {
        Kind::Independent => None,
        Kind::PlusIdentity => Some(Sign::Plus),
        Kind::MinusIdentity => Some(Sign::Minus),
    }
}

// Whether the group of a record's generators has a member with p's masks, and with which sign: 15 and 6 to 8 first.
pub fn membership_of(code: Code, p: Pauli) -> Result<Option<Sign>, Refusal>
    ensures { result ≡ membership code p }
{
    let e = elimination::eliminate(code);
    e.answer?;
    let left = e.reduced.reduce(Pauli::signed(Sign::Plus, p.a, p.b));
    Ok(member_kind(kind_of(left)))
}
