ghost use Rattle.std.specs.Prelude.{◌≡◌, ◌++◌, ◌≤◌, OnOk, IfOk, string_bytes, length};
ghost use Rattle.kn_report.specs.Reports.{count_line};
ghost use Rattle.kn_cms_rule.specs.declared.stages.Stage.TheVariants.{Finished};
ghost use Rattle.kn_cms_rule.specs.State.{State};
ghost use Rattle.kn_cms.specs.Stands.{StandsFor};
ghost use Rattle.kn_cms_report.specs.CoreReports.{IsCoreText, core_text, count_condemned, fate_text, object_text, objects_text};

use crate::facts::{fates_of, logs_of};
use kn_cms::Core;
use kn_report::{Log, push_count, push_threads};
use std::alloc::{AllocError, Global};

/// What became of an object.
fn spell(is_condemned: bool) -> &'static str
    ensures { result.now ≡ fate_text is_condemned }
{
    if is_condemned { " condemned" } else { " kept" }
}

fn push_object(text: &mut String, k: usize, is_condemned: bool) -> Result<(), AllocError>
    ensures { OnOk result (string_bytes text.new ≡ string_bytes text.old ++ object_text k is_condemned) }
{
    let fate = spell(is_condemned);
    writeln!(text, "object {k}{fate}")
}

fn push_objects(text: &mut String, flags: &[bool]) -> Result<(), AllocError>
    ensures { OnOk result (string_bytes text.new ≡ string_bytes text.old ++ objects_text (length flags.now) flags.now) }
{
    for k in 0..flags.len() {
        push_object(text, k, flags[k])?;
    }
    Ok(())
}

/// How many objects are condemned.
fn count_condemned(flags: &[bool]) -> u64
    ensures { result ≡ count_condemned flags.now }
{
    flags.iter().filter(|flag| **flag).count() as u64
}

/// The text of logs, of which objects are condemned, and of the number of objects at the snapshot.
fn write_core(
    alloc: Global,
    logs: &[Log],
    flags: &[bool],
    snapshot: u32,
) -> Result<String, AllocError>
    ensures { IfOk result (λ text. string_bytes text ≡ core_text logs.now flags.now snapshot) }
{
    let mut text = String::new(alloc);
    push_threads(&mut text, logs.len(), logs)?;
    push_objects(&mut text, flags)?;
    push_count(&mut text, "snapshot", u64::from(snapshot))?;
    push_count(&mut text, "condemned", count_condemned(flags))?;
    writeln!(text, "end")?;
    Ok(text)
}

/// The text of a run whose collector has ended (`IsCoreText` in `specs/CoreReports.antt`): the replies
/// of each thread, what became of each object, and the tail. An error is want of memory.
pub fn core_report(alloc: Global, core: &Core) -> Result<String, AllocError>
    requires { (s : State) → StandsFor core.now s → s.stage ≡ Finished }
    ensures { IfOk result (λ text. (s : State) → StandsFor core.now s → IsCoreText core.now.ground s (string_bytes text)) }
{
    let logs = logs_of(alloc, core.history(), core.threads())?;
    let flags = fates_of(alloc, core)?;
    let snapshot = core.snapshot().unwrap_or(0);
    write_core(alloc, &logs, &flags, snapshot)
}
