ghost use Rattle.kn_base.specs.Frames.{FramesLie};
ghost use Rattle.kn_base.specs.Sizes.{IsGood};
ghost use Rattle.kn_base.specs.declared.heap.Sizes.{Sizes};

/// The frames of a heap lie one after another from address 1 on, apart and within the heap's words
/// (`FramesLie` in `specs/Frames.antt`).
pub fn frames_lie()
    ensures { (z : Sizes) → IsGood z → FramesLie z }
{}
