ghost use Rattle.std.specs.Prelude.{◌≡◌, false, is_ok, is_err};
ghost use Rattle.std.specs.Io.{ReadsAtMost, WritesAtMost};
ghost use Rattle.std.specs.Io.KnownBytes.{Keeps, ReadConsumes, WriteAppends};
ghost use Rattle.eevdf_bench.specs.Watch.{takes_nothing};

use std::io;
use std::io::{Read, Write};
use std::marker::Model;

/// A reader or a writer that remembers whether one of its calls failed: answered an error, of any kind, or,
/// of a writer, took nothing of a piece that wasn't empty. A call is only allowed where none has failed, so one that failed
/// is the last. Of a writer it remembers whether that call was a flush.
///
/// It also remembers whether a writer is flushed: whether its last write or flush was a flush that succeeded.
#[derive(Drop)]
pub struct Watched<E> {
    end: E,
    failed: bool,
    flush_failed: bool,
    flushed: bool,
}

impl<E> Model for Watched<E> {
    ghost use Rattle.eevdf_bench.specs.Watch.{Watch, watch_code};

    ghost Value = { Watch E };

    ghost coded = { watch_code E.code };

    ghost view = { λ w. record {
      end = w.end;
      failed = w.failed;
      flush_failed = w.flush_failed;
      flushed = w.flushed;
    } };
}

impl<E> Watched<E> {
    /// Watches a reader or a writer, none of whose calls counts as failed yet. A writer doesn't count as flushed, since it may
    /// have been written to before.
    pub fn new(end: E) -> Self
        ensures end { result.end ≡ end }
        ensures fresh { result.failed ≡ false }
        ensures flush_failed { result.flush_failed ≡ false }
        ensures flushed { result.flushed ≡ false }
    {
        Watched {
            end,
            failed: false,
            flush_failed: false,
            flushed: false,
        }
    }

    /// The reader or writer itself.
    pub fn into_inner(self) -> E
        ensures { result ≡ self.end }
    {
        let Watched {
            end,
            failed: _,
            flush_failed: _,
            flushed: _,
        } = self;
        end
    }

    /// Whether a call failed.
    pub fn failed(&self) -> bool
        ensures { result ≡ self.now.failed }
    {
        self.failed
    }

    /// Whether the last write or flush was a flush that failed.
    pub fn flush_failed(&self) -> bool
        ensures { result ≡ self.now.flush_failed }
    {
        self.flush_failed
    }

    /// Whether the last write or flush was a flush that succeeded.
    pub fn flushed(&self) -> bool
        ensures { result ≡ self.now.flushed }
    {
        self.flushed
    }
}

impl<R: Read> Watched<R> {
    /// Reads a piece from a reader that hasn't failed yet.
    pub fn read(&mut self, buf: &mut [u8]) -> io::Result<usize>
        requires { self.old.failed ≡ false }
        ensures bound { ReadsAtMost result buf.new }
        ensures bytes { ReadConsumes
            (R.remaining self.old.end) (R.remaining self.new.end) result buf.new }
        ensures failed { self.new.failed ≡ is_err result }
        ensures flush_failed { self.new.flush_failed ≡ self.old.flush_failed }
        ensures flushed { self.new.flushed ≡ self.old.flushed }
    {
        let result = self.end.read(buf);
        self.failed = result.is_err();
        result
    }
}

impl<W: Write> Watched<W> {
    /// Writes the front of a piece to a writer that hasn't failed yet. After that it doesn't count as flushed, even if it took
    /// nothing.
    pub fn write(&mut self, buf: &[u8]) -> io::Result<usize>
        requires { self.old.failed ≡ false }
        ensures bound { WritesAtMost result buf.now }
        ensures bytes { WriteAppends
            (W.contents self.old.end) (W.contents self.new.end) result buf.now }
        ensures failed { self.new.failed ≡ takes_nothing result buf.now }
        ensures flush_failed { self.new.flush_failed ≡ false }
        ensures flushed { self.new.flushed ≡ false }
    {
        let result = self.end.write(buf);
        self.failed = is_failed_write(&result, buf);
        self.flush_failed = false;
        self.flushed = false;
        result
    }

    /// Flushes a writer that hasn't failed yet. It counts as flushed exactly where that succeeds.
    pub fn flush(&mut self) -> io::Result<()>
        requires { self.old.failed ≡ false }
        ensures bytes { Keeps (W.contents self.old.end) (W.contents self.new.end) }
        ensures failed { self.new.failed ≡ is_err result }
        ensures flush_failed { self.new.flush_failed ≡ is_err result }
        ensures flushed { self.new.flushed ≡ is_ok result }
    {
        let result = self.end.flush();
        self.failed = result.is_err();
        self.flush_failed = result.is_err();
        self.flushed = result.is_ok();
        result
    }
}

fn is_failed_write(written: &io::Result<usize>, buf: &[u8]) -> bool
    ensures { result ≡ takes_nothing written.now buf.now }
{
    match written {
        Ok(taken) => *taken == 0 && !buf.is_empty(),
        Err(_) => true,
    }
}
