// Sets of states as masks, bit i for state i.
#![tactic(auto)]

ghost use Rattle.std.specs.Prelude.{◌≡◌};
ghost use Rattle.base.specs.Masks.{past_states};

// Whether the mask has a bit for state n or above. A mask has 16 bits, so no n from 16 on can be passed.
#[tactic(auto, using(crate::proofs::Masks::past_none))]
pub fn past_states(n: u8, mask: u16) -> bool
    ensures { result ≡ past_states n mask }
{
    n < 16 && mask >> n != 0
}
