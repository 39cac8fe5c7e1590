// What a program looks at of its input.
ghost use Rattle.std.specs.Prelude.{◌≡◌, ◌≤◌, IfOk, IfSome, take, vec_len};

use sheets::lines::LONGEST;
use std::alloc::Global;
use std::io;
use std::io::Read;

/// Reads as many bytes as the longest sheet has, and one more, by which a longer one is seen.
pub fn read_input<R: Read + Drop>(alloc: Global, input: R) -> io::Result<Vec<u8>>
    ensures bound { IfOk result (λ bytes. vec_len bytes ≤ 32769) }
    ensures bytes { IfOk result (λ bytes.
        IfSome (R.remaining input) (λ given. bytes.items ≡ take 32769 given)) }
{
    let mut bytes = Vec::new(alloc);
    input.take(LONGEST as u64 + 1).read_to_end(&mut bytes)?;
    // It holds no more: of a reader that does not say what it gives, this line is what shows it.
    bytes.truncate(LONGEST + 1);
    Ok(bytes)
}
