ghost use Rattle.std.specs.Prelude.{◌≡◌, ◌≤◌, take, length, IfOk, IsErrOf};
ghost use Rattle.kn_lines.specs.Built.{AreBuilt};
ghost use Rattle.kn_script.specs.Scripts.{Scripted};
ghost use Rattle.kn_script.specs.Grammar.{Takes, IsText, IsTextToday, IsBad, IsBadToday, IfBad};
ghost use Rattle.kn_script.specs.Good.{IsGoodProgress, IsGoodScript};
ghost use Rattle.kn_script.specs.Reasons.{IsFirst};

use crate::faults::{Fault, Why};
use crate::progress::Progress;
use crate::reasons::judge;
use crate::scripts::Script;
use kn_base::{LONGEST_TEXT, line_after};
use kn_lines::{Built, Line, Lines, TODAY};
use std::alloc::Global;

/// The script whose text the bytes are, in the words that are built today (`IsTextToday` in
/// `specs/Grammar.antt`).
///
/// `Fault::Bad` comes exactly where the bytes are the text of no script, unless memory runs out. It
/// has the first bad line, counted from 1, and the first reason of the table that this line meets;
/// `Long` stands before all else.
pub fn parse(alloc: Global, bytes: &[u8]) -> Result<Script, Fault>
    ensures text { IfOk result (λ script. IsTextToday script bytes.now) }
    ensures good { IfOk result IsGoodScript }
    ensures only { IfOk result (λ script. (other : Scripted) → IsTextToday other bytes.now → other ≡ script) }
    ensures bad { IfBad result (λ line why. IsBadToday bytes.now line why) }
    ensures none { IfBad result (λ line why. (script : Scripted) → IsTextToday script bytes.now → ⊥) }
    ensures memory { IsErrOf result Fault.Memory → length bytes.now ≤ LONGEST_TEXT }
    ensures words { IfOk result (λ script. AreBuilt TODAY script.threads) }
{
    read_script(alloc, &TODAY, bytes)
}

/// The script whose text the bytes are, in the words that are built (`IsText` in
/// `specs/Grammar.antt`), or the first bad line and the first reason that it meets (`IsBad` there).
pub fn read_script(alloc: Global, built: &Built, bytes: &[u8]) -> Result<Script, Fault>
    ensures text { IfOk result (λ script. IsText built.now script bytes.now) }
    ensures good { IfOk result IsGoodScript }
    ensures only { IfOk result (λ script. (other : Scripted) → IsText built.now other bytes.now → other ≡ script) }
    ensures bad { IfBad result (λ line why. IsBad built.now bytes.now line why) }
    ensures none { IfBad result (λ line why. (script : Scripted) → IsText built.now script bytes.now → ⊥) }
    ensures memory { IsErrOf result Fault.Memory → length bytes.now ≤ LONGEST_TEXT }
    ensures words { IfOk result (λ script. AreBuilt built.now script.threads) }
{
    if (LONGEST_TEXT as usize) < bytes.len() {
        return Err(Fault::Bad {
            line: line_after(head_of(bytes)),
            why: Why::Long,
        });
    }
    let mut lines = Lines::new(bytes);
    let mut progress = Progress::new(alloc, built);
    while let Some(line) = lines.next_line() {
        take_line(alloc, &mut progress, &line)?;
    }
    if !progress.is_closed() {
        return Err(Fault::Bad {
            line: lines.number(),
            why: Why::Count,
        });
    }
    Ok(progress.into_script())
}

/// Takes a good line into the progress.
fn take_line(alloc: Global, progress: &mut Progress, line: &Line) -> Result<(), Fault>
    requires { IsGoodProgress progress.old }
    ensures taken { IfOk result (λ _. Takes progress.old line.now progress.new) }
    ensures bad { IfBad result (λ n why. (n ≡ line.now.number) × IsFirst progress.old line.now why) }
{
    match judge(progress, line) {
        Ok(read) => {
            progress.add(alloc, read, line.arguments())?;
            Ok(())
        }
        Err(why) => Err(Fault::Bad {
            line: line.number(),
            why,
        }),
    }
}

/// As many bytes as a text may have.
fn head_of(bytes: &[u8]) -> &[u8]
    requires { LONGEST_TEXT ≤ length bytes.now }
    ensures head { result.now ≡ take LONGEST_TEXT bytes.now }
    ensures count { length result.now ≤ LONGEST_TEXT }
{
    &bytes[..LONGEST_TEXT as usize]
}
