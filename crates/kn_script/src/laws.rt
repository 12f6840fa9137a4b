ghost use Rattle.kn_lines.specs.declared.built.Built.{Built};
ghost use Rattle.kn_script.specs.Laws.{EachLineIsTakenOrBad, NoLineIsBoth, EachTextIsOneOrBad, NoTextIsBad, TextsAreOfOneScript, TextsAreGood, GroundsAreGood};

/// The laws of the grammar, whatever is built: each line that is not passed over is taken or has one
/// first reason, and never both; bytes are the text of one script, which is good, or have one first
/// bad line, and never both. The ground of a good script is good.
pub fn state_laws()
    ensures lines { EachLineIsTakenOrBad }
    ensures apart { NoLineIsBoth }
    ensures texts { (built : Built) → EachTextIsOneOrBad built }
    ensures texts_apart { (built : Built) → NoTextIsBad built }
    ensures one { (built : Built) → TextsAreOfOneScript built }
    ensures grounds { GroundsAreGood }
    ensures good { (built : Built) → TextsAreGood built }
{}
