//! The program: lists the tokens and the statement ends of the script on standard input.
#![tactic(auto)]

ghost use Rattle.std.specs.Prelude.{◌≡◌, ◌≤◌, IfOk, IfSome, take, vec_len};
ghost use Rattle.std.specs.Process.{exit_status};
ghost use Rattle.cushallen.specs.Status.{status};

use listing::{LONGEST_INPUT, Listing, list_input};
use std::alloc::Global;
use std::io::{Read, Write};
use std::process::ExitCode;

/// One byte more than the longest input is enough to see that it is too long.
const ENOUGH: usize = LONGEST_INPUT as usize + 1;

/// All of an input, or its first `ENOUGH` bytes. Each read asks for as much as the chunk holds: where an input keeps
/// messages apart, a shorter read would cut one.
fn read_input<R: Read + Drop>(heap: Global, mut reader: R) -> anyhow::Result<Vec<u8>>
    ensures bounded { IfOk result (λ v. vec_len v ≤ 65537) }
    ensures first { IfOk result
        (λ v. IfSome (R.remaining reader) (λ xs. v.items ≡ take 65537 xs)) }
{
    let mut input = Vec::new(heap);
    let mut chunk = [0u8; 4096];
    while input.len() < ENOUGH {
        let count = reader.read(&mut chunk)?;
        if count == 0 {
            break;
        }
        let kept = count.min(ENOUGH - input.len());
        input.extend_from_slice(&chunk[0..kept])?;
    }
    Ok(input)
}

/// The status that the program ends with: 1 where the input is refused, and else 0.
fn status_of(listing: &Listing) -> ExitCode
    ensures { exit_status result ≡ status listing.now }
{
    match listing {
        Listing::Listed(_) => ExitCode::SUCCESS,
        Listing::Refused(_) => ExitCode::FAILURE,
    }
}

fn main(rt: HostRuntime) -> anyhow::Result<ExitCode> {
    let input = read_input(rt.alloc(), rt.stdin())?;
    let listing = list_input(rt.alloc(), &input)?;
    rt.stdout().write_all(listing.text().as_bytes())?;
    Ok(status_of(&listing))
}

#[cfg(test)]
mod tests {
    use super::*;
    use std::io;

    /// An input that keeps messages apart, each of so many bytes: what a read leaves of one is lost.
    #[derive(Drop)]
    struct Messages {
        left: usize,
        bytes: usize,
    }

    impl Read for Messages {
        fn read(&mut self, buf: &mut [u8]) -> io::Result<usize> {
            if self.left == 0 {
                return Ok(0);
            }
            self.left -= 1;
            let count = self.bytes.min(buf.len());
            buf[0..count].fill(b'a');
            Ok(count)
        }
    }

    /// How many bytes are read of as many messages as are told.
    fn read_of(heap: Global, left: usize, bytes: usize) -> anyhow::Result<usize> {
        Ok(read_input(heap, Messages { left, bytes })?.len())
    }

    #[test]
    fn a_message_is_read_whole(rt: HostRuntime) -> anyhow::Result<()> {
        assert_eq!(rt; read_of(rt.alloc(), 1, 513)?, 513);
        assert_eq!(rt; read_of(rt.alloc(), 3, 4096)?, 12288);
        assert_eq!(rt; read_of(rt.alloc(), 17, 4096)?, 65537);
        assert_eq!(rt; read_of(rt.alloc(), 1000, 65)?, 65000);
        Ok(())
    }
}
