ghost use Rattle.std.specs.Prelude.{◌≡◌, ◌≤◌, length};
ghost use Rattle.kn_report.specs.Reports.{line};
ghost use Rattle.kn_commands.specs.Refusals.{refusal, why_text};

use arrayvec::ArrayString;
use itoa::Buffer;
use kn_script::Why;

/// How a reason is spelled.
fn spell(why: Why) -> &'static str
    ensures text { result.now ≡ why_text why }
    ensures short { length result.now ≤ 6 }
{
    match why {
        Why::Word => "word",
        Why::Number => "number",
        Why::Range => "range",
        Why::Count => "count",
        Why::Order => "order",
        Why::Late => "late",
        Why::Long => "long",
    }
}

/// The line that tells why a script is refused (`refusal` in `specs/Refusals.antt`), with its line
/// feed. It takes no memory.
pub fn refusal_line(bad_line: u32, why: Why) -> ArrayString<32>
    ensures { result.bytes ≡ line (refusal bad_line why) }
{
    let mut buffer = Buffer::new();
    let mut text = ArrayString::new();
    text.push_str("line ");
    text.push_str(buffer.format(bad_line));
    text.push_str(" ");
    text.push_str(spell(why));
    text.push_str("\n");
    text
}
