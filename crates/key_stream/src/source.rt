//! A window that follows its source.

ghost use Rattle.std.specs.Prelude.{◌≡◌, IfErr, IfOk, OnOk};
ghost use Rattle.byte_io.specs.Devices.{CanStillFail, IsReadFault};
ghost use Rattle.key_stream.specs.Counting.{Refills};

use crate::window::Window;
use byte_io::Source;
use lane_words::Refusal;

/// Reads on into a window, unless its source is at its end, and returns whether it is now.
pub fn refill<S: Source>(source: &mut S, window: &mut Window, at_end: bool) -> Result<bool, Refusal>
    requires { CanStillFail (S.failures source.old) }
    ensures window { IfOk result (λ end. Refills at_end end (S.left source.old) (S.left source.new)
        window.old window.new) }
    ensures no_failures { OnOk result (S.failures source.new ≡ S.failures source.old) }
    ensures failures { IfErr result
        (IsReadFault (S.failures source.old) (S.failures source.new)) }
{
    if at_end {
        Ok(true)
    } else {
        window.read_on(source)
    }
}
