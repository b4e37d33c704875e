//! Numbers that are handed out one after another.

ghost use Rattle.std.specs.Prelude.{◌≡◌, ◌+◌, IfOk};

use sw_base::NoMemory;

/// The number that comes so many after this one. The only error is want of numbers.
pub(crate) fn after(number: u32, count: u32) -> Result<u32, NoMemory>
    ensures { IfOk result (λ n. n ≡ number + count) }
{
    match number.checked_add(count) {
        Some(n) => Ok(n),
        None => Err(NoMemory),
    }
}
