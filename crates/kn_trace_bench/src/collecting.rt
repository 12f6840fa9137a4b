//! Scripts with `gc`, which is no word of a script yet.
ghost use Rattle.std.specs.Prelude.{IfSome};
ghost use Rattle.kn_script.specs.Good.{IsGoodScript};
ghost use Rattle.kn_trace.specs.Runs.{AreBuilt};

use kn_lines::{Built, TODAY};
use kn_script::{Script, read_script};
use std::alloc::Global;

/// What is built today, and `gc`.
const WITH_COLLECT: Built = Built {
    calls: [
        true, true, true, true, true, true, true, true, true, true, true, false, false, false,
        false, false, false, false, false, false, false, true,
    ],
    ..TODAY
};

/// The script of a text that may have `gc` in it.
pub fn read(alloc: Global, text: &str) -> Option<Script>
    ensures good { IfSome result IsGoodScript }
    ensures built { IfSome result (λ script. AreBuilt script.threads) }
{
    match read_script(alloc, &WITH_COLLECT, text.as_bytes()) {
        Ok(script) => Some(script),
        Err(_) => None,
    }
}
