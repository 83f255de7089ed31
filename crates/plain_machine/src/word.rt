ghost use Rattle.std.specs.Prelude.{◌≡◌, ◌<◌, length};
ghost use Rattle.cilk_meaning.specs.Locals.{extent_of};
ghost use Rattle.cilk_meaning.specs.Values.{word_of};

use cilk_meaning::TrapKind;
use machine_code::Code;

/// The shared word of an array at an index, or the trap where it has none there.
pub fn word_at(code: &Code, array: u32, index: i64) -> Result<u32, TrapKind>
    requires { array < length code.now.shared }
    ensures { result ≡ word_of (extent_of code.now.shared array) index }
{
    let extent = code.shared[array as usize];
    if 0 <= index && index < extent.words as i64 {
        Ok(extent.base + index as u32)
    } else {
        Err(TrapKind::IndexOutOfRange)
    }
}
