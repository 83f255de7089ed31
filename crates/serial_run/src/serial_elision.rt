ghost use Rattle.std.specs.Prelude.{IfOk};
ghost use Rattle.cilk_meaning.specs.Resolved.{Program};
ghost use Rattle.machine_code.specs.StandsFor.{StandsFor};
ghost use Rattle.serial_run.specs.Elision.{IsElision};

use crate::run::Run;
use crate::serial_end::SerialEnd;
use machine_code::Code;
use std::alloc::{AllocError, Global};

/// Runs the serial elision of the program that a code stands for, for at most `budget` ticks. It ends with `Budget` exactly where it has made
/// all of them and wants one more. The error comes only where memory is refused, or where the history would need numbers of more
/// than 32 bits.
///
/// It takes time of the ticks and of the shared words, and under 200 bytes for each tick beside the shared words.
pub fn serial(alloc: Global, code: &Code, budget: u64) -> Result<SerialEnd, AllocError>
    ensures elision { (program : Program) → StandsFor code.now program → IfOk result (λ ended. IsElision code.now program budget ended) }
{
    let mut run = Run::start(alloc, code, budget)?;
    loop {
        if let Some(end) = run.turn(alloc, code)? {
            return run.finish(alloc, end, budget);
        }
    }
}
