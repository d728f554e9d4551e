// Reading a whole input, up to a limit.
#![tactic(auto)]

ghost use Rattle.std.specs.Prelude.{◌≡◌, ◌≢◌, ℕ, ◌≤◌, List, length, take, drop, Some, IfOk, OnOk, IfErr, OnErr, IfSome, vec_len};
ghost use Rattle.std.specs.IoError.{error_kind};
ghost use Rattle.std.specs.Io.KnownBytes.{Consumes};

use std::alloc::Global;
use std::io;
use std::io::{ErrorKind, Read};

// The bytes of `reader` up to its end, or the first `limit` of them where there are more. No byte past
// the limit is asked for. A read that a signal interrupts is tried again. Each read is handed zeros, and no bytes of an earlier one.
pub fn read_at_most<R: Read>(heap: Global, reader: &mut R, limit: usize) -> io::Result<Vec<u8>>
    ensures within { IfOk result (λ v. vec_len v ≤ limit) }
    ensures bytes { IfOk result (λ v. IfSome (R.remaining reader.old) (λ xs. v.items ≡ take limit xs)) }
    ensures rest { OnOk result (IfSome (R.remaining reader.old) (λ xs. R.remaining reader.new ≡ Some (drop limit xs))) }
    ensures retried { IfErr result (λ e. error_kind e ≢ ErrorKind.Interrupted) }
    ensures err { OnErr result ((lost : List ℕ) × (length lost ≤ limit) × Consumes (R.remaining reader.old) (R.remaining reader.new) lost) }
{
    let mut bytes = Vec::new(heap);
    for _ in 0..u64::MAX {
        let mut chunk = [0u8; 8192];
        let room = chunk.len().min(limit - bytes.len());
        if room == 0 {
            return Ok(bytes);
        }
        match reader.read(&mut chunk[..room]) {
            Ok(0) => return Ok(bytes),
            Ok(n) => bytes.extend_from_slice(&chunk[..n])?,
            Err(e) if e.kind() == ErrorKind::Interrupted => {}
            Err(e) => return Err(e),
        }
    }
    Err(io::Error::other("the input does not end"))
}

#[cfg(test)]
mod tests {
    use super::*;
    use std::test::Fail;

    #[test]
    fn stops_at_the_limit(rt: HostRuntime) -> Result<(), Fail> {
        let mut source: &[u8] = b"starlight";
        let bytes = read_at_most(rt.alloc(), &mut source, 4)?;
        assert!(rt; bytes.as_slice() == b"star".as_slice());
        assert!(rt; source == b"light".as_slice());
        Ok(())
    }

    #[test]
    fn stops_at_the_end(rt: HostRuntime) -> Result<(), Fail> {
        let mut source: &[u8] = b"star";
        let bytes = read_at_most(rt.alloc(), &mut source, 5)?;
        assert!(rt; bytes.as_slice() == b"star".as_slice());
        Ok(())
    }

    // Three chunks, the last one cut by the limit.
    #[test]
    fn joins_chunks(rt: HostRuntime) -> Result<(), Fail> {
        let sky = vec![in rt.alloc(); 7u8; 20000]?;
        let mut source = sky.as_slice();
        let bytes = read_at_most(rt.alloc(), &mut source, 19999)?;
        assert!(rt; bytes.len() == 19999);
        assert!(rt; source.len() == 1);
        Ok(())
    }

    // Writes two bytes the first time, and nothing the second time, when it says so all the same.
    #[derive(Drop)]
    struct Silent {
        turn: u8,
    }

    impl Read for Silent {
        fn read(&mut self, buf: &mut [u8]) -> io::Result<usize> {
            self.turn = self.turn.saturating_add(1);
            let [first, second, ..] = buf else {
                return Ok(0);
            };
            if self.turn == 1 {
                *first = b'a';
                *second = b'b';
            }
            Ok(if self.turn <= 2 { 2 } else { 0 })
        }
    }

    #[test]
    fn hands_no_earlier_bytes_to_a_read(rt: HostRuntime) -> Result<(), Fail> {
        let bytes = read_at_most(rt.alloc(), &mut Silent { turn: 0 }, 9)?;
        assert!(rt; bytes.as_slice() == b"ab\0\0".as_slice());
        Ok(())
    }

    // Each byte comes by itself, after a read that a signal interrupts.
    #[derive(Drop)]
    struct Interrupted<'a> {
        rest: &'a [u8],
        is_next: bool,
    }

    impl Read for Interrupted<'_> {
        fn read(&mut self, buf: &mut [u8]) -> io::Result<usize> {
            self.is_next = !self.is_next;
            if self.is_next {
                return Err(io::Error::from(ErrorKind::Interrupted));
            }
            let room = buf.len().min(1);
            self.rest.read(&mut buf[..room])
        }
    }

    #[test]
    fn reads_on_after_an_interruption(rt: HostRuntime) -> Result<(), Fail> {
        let rest: &[u8] = b"star";
        let mut source = Interrupted {
            rest,
            is_next: false,
        };
        let bytes = read_at_most(rt.alloc(), &mut source, 3)?;
        assert!(rt; bytes.as_slice() == b"sta".as_slice());
        assert!(rt; source.rest == b"r".as_slice());
        Ok(())
    }
}
