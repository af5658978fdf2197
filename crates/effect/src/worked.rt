// A worked effect.
ghost use Rattle.effect.specs.Worked.{WorkedJsr};

// The jump to a register that it links itself uses the old value, with bit 0 cleared.
// The proof opens `effect` to compute it.
#[tactic(auto, unfolding(crate::specs::Effect::effect))]
pub fn worked_jsr()
    ensures { WorkedJsr }
{}
