//! Readers and writers whose failures are counted.
ghost use Rattle.std.specs.Prelude.{◌≡◌, ◌<◌, ◌≤◌, length, take, IfSome, IfNone, MatchBool};
ghost use Rattle.std.specs.Io.KnownBytes.{Keeps, Appends, Consumes, IsAtEnd};
ghost use Rattle.std.specs.Bool.{OnTrue, OnFalse};

use std::io::{Read, Write};

/// A reader or a writer, and how many of its calls have failed.
#[derive(Drop)]
pub struct Counted<T> {
    inner: T,
    failures: u64,
}

impl<T> Counted<T> {
    ghost use Rattle.sf_player.specs.Counting.{inner_of, failures_of, one_more};

    /// A reader or a writer with no failures so far.
    pub fn new(inner: T) -> Counted<T>
        ensures inner { inner_of result ≡ inner }
        ensures failures { failures_of result ≡ 0 }
    {
        Counted { inner, failures: 0 }
    }

    /// How many calls have failed. The count stays at `u64::MAX`.
    pub fn failures(&self) -> u64
        ensures { result ≡ failures_of self.now }
    {
        self.failures
    }

    /// The reader or writer itself.
    pub fn into_inner(self) -> T
        ensures { result ≡ inner_of self }
    {
        let Counted { inner, failures: _ } = self;
        inner
    }

    fn fail(&mut self)
        ensures failures { failures_of self.new ≡ one_more (failures_of self.old) }
        ensures inner { inner_of self.new ≡ inner_of self.old }
    {
        self.failures = self.failures.saturating_add(1);
    }
}

impl<R: Read> Counted<R> {
    ghost use Rattle.sf_player.specs.Counting.{inner_of, failures_of, one_more};

    /// Reads some bytes: none only at the end. Any error of the reader is a failure.
    pub(crate) fn read_some(&mut self, buf: &mut [u8]) -> Option<usize>
        ensures bound { IfSome result (λ n. n ≤ length buf.new) }
        ensures bytes { IfSome result (λ n. Consumes (R.remaining (inner_of self.old))
            (R.remaining (inner_of self.new)) (take n buf.new)) }
        ensures end { IfSome result (λ n. n ≡ 0 → 0 < length buf.new → IsAtEnd
            (R.remaining (inner_of self.new))) }
        ensures fine { IfSome result (λ n. failures_of self.new ≡ failures_of self.old) }
        ensures kept { IfNone result (Keeps (R.remaining (inner_of self.old))
            (R.remaining (inner_of self.new))) }
        ensures failed { IfNone result (failures_of self.new ≡ one_more (failures_of self.old)) }
    {
        match self.inner.read(buf) {
            Ok(n) => Some(n),
            Err(_) => {
                self.fail();
                None
            }
        }
    }
}

impl<W: Write> Counted<W> {
    ghost use Rattle.sf_player.specs.Counting.{inner_of, failures_of, one_more, WritesFront};

    /// Writes some of the bytes. Any error of the writer, and an answer of no bytes, is a failure.
    fn write_some(&mut self, text: &[u8]) -> Option<usize>
        ensures bound { IfSome result (λ n. n ≤ length text.now) }
        ensures some { IfSome result (λ n. 0 < n) }
        ensures bytes { IfSome result (λ n. Appends (W.contents (inner_of self.old))
            (W.contents (inner_of self.new)) (take n text.now)) }
        ensures fine { IfSome result (λ n. failures_of self.new ≡ failures_of self.old) }
        ensures kept { IfNone result (Keeps (W.contents (inner_of self.old))
            (W.contents (inner_of self.new))) }
        ensures failed { IfNone result (failures_of self.new ≡ one_more (failures_of self.old)) }
    {
        match self.inner.write(text) {
            Ok(n) if n != 0 => Some(n),
            _ => {
                self.fail();
                None
            }
        }
    }

    fn flush(&mut self) -> bool
        ensures bytes { Keeps (W.contents (inner_of self.old)) (W.contents (inner_of self.new)) }
        ensures failures { MatchBool result (failures_of self.new ≡ failures_of self.old)
            (failures_of self.new ≡ one_more (failures_of self.old)) }
    {
        if self.inner.flush().is_err() {
            self.fail();
            return false;
        }
        true
    }

    /// Writes all of the text and flushes it. After a failure a front of it was written.
    pub fn put(&mut self, text: &[u8]) -> bool
        ensures written { OnTrue result (Appends (W.contents (inner_of self.old))
            (W.contents (inner_of self.new)) text.now) }
        ensures front { OnFalse result (WritesFront (W.contents (inner_of self.old))
            (W.contents (inner_of self.new)) text.now) }
        ensures failures { MatchBool result (failures_of self.new ≡ failures_of self.old)
            (failures_of self.new ≡ one_more (failures_of self.old)) }
    {
        let mut at = 0;
        while at < text.len() {
            match self.write_some(&text[at..]) {
                Some(n) => at += n,
                None => return false,
            }
        }
        self.flush()
    }
}
