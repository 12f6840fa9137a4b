ghost use Rattle.std.specs.Prelude.{◌≡◌, ◌+◌, ◌^◌, ◌<◌, length};
ghost use Rattle.kn_base.specs.Texts.{line_behind};

/// The number of the line that begins behind bytes: 1 plus the number of line feeds among them
/// (`line_behind` in `specs/Texts.antt`).
pub fn line_after(bytes: &[u8]) -> u32
    requires { length bytes.now + 1 < 2 ^ 32 }
    ensures { result ≡ line_behind bytes.now }
{
    1 + bytes.iter().filter(|byte| **byte == b'\n').count() as u32
}
