//! The laws over the definitions that speak of no step. Each is a clause of a function that does
//! nothing; what it says is written in `specs/Laws.antt`.

ghost use Rattle.kn_rule.specs.Laws.{FrameWordsDecode, HeaderWordsDecode, NodeWordsDecode, PlacesLie, SearchesEnd, StartMeetsRule};
ghost use Rattle.kn_rule.specs.Laws.{WordsAreSet, WordsHaveFrames};

/// A heap whose words are 0, whose pages lie in their slots wholly free, whose callers have made no
/// step and whose history is empty meets the rule.
pub fn start_law()
    ensures { StartMeetsRule }
{}

/// What it means that a search has ended.
pub fn search_law()
    ensures { SearchesEnd }
{}

/// The words of all places lie in one list, each at a place of its own.
pub fn place_laws()
    ensures lie { PlacesLie }
    ensures set { WordsAreSet }
{}

/// What is packed is read back.
pub fn word_laws()
    ensures frame { FrameWordsDecode }
    ensures node { NodeWordsDecode }
    ensures header { HeaderWordsDecode }
{}

/// The frame of a word is the one that has it.
pub fn frame_law()
    ensures { WordsHaveFrames }
{}
