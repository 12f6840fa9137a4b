//! The scripts that the core reads.

ghost use Rattle.std.specs.Prelude.{◌≡◌, IfOk, true};
ghost use Rattle.std.specs.List.{AllByRecursion};
ghost use Rattle.kn_script.specs.Good.{IsGoodScript};
ghost use Rattle.kn_script.specs.Grammar.{IfBad, IsBad, IsText};
ghost use Rattle.kn_cms_rule.specs.Calls.{is_core_call};
ghost use Rattle.kn_cms.specs.CoreWords.{HasAllHeaders, HasCoreCalls, HasCoreParts};

use kn_lines::Built;
use kn_script::{Fault, Script, read_script};
use std::alloc::Global;

/// The words that the core reads: every header word, its nine calls, and in the order a thread's
/// number, `c`, `r`, `*N` and `/N`.
pub const CORE_WORDS: Built = Built {
    headers: [true; 7],
    calls: [
        true, true, true, true, true, true, true, false, false, true, true, false, false, false,
        false, false, false, false, false, false, false, false,
    ],
    orders: [true, true, false, true, true, true, false, false],
};

/// `CORE_WORDS` has exactly the words of the core's calls, every header word, and exactly the parts of
/// its order words.
pub fn core_words_law()
    ensures calls { HasCoreCalls CORE_WORDS }
    ensures headers { HasAllHeaders CORE_WORDS }
    ensures parts { HasCoreParts CORE_WORDS }
{}

/// The script of the core whose text the bytes are (`IsText` in `specs/Grammar.antt` of `kn_script`),
/// or the first bad line and the first reason that it meets. Want of memory is the one other error.
pub fn read_core_script(alloc: Global, bytes: &[u8]) -> Result<Script, Fault>
    ensures text { IfOk result (λ script. IsText CORE_WORDS script bytes.now) }
    ensures good { IfOk result IsGoodScript }
    ensures calls { IfOk result (λ script. AllByRecursion (AllByRecursion (λ call. is_core_call call ≡ true)) script.threads) }
    ensures bad { IfBad result (λ line why. IsBad CORE_WORDS bytes.now line why) }
{
    read_script(alloc, &CORE_WORDS, bytes)
}
