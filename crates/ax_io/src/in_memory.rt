ghost use Rattle.std.specs.Prelude.{◌≡◌, ◌⊎◌, min, [], length, take, Some, OnOk, OnErr, IfOk, IsErr, IsNone, IsTrue, ◌↔◌, unwrap_or};
ghost use Rattle.ax_io.specs.Count as counts;
ghost use Rattle.ax_io.specs.Content as content;

use super::{Failed, Faults, Sink, Source};
use ax_types::List;
use std::alloc::Global;
use std::marker::Model;

/// A source of bytes in memory, which fails at given calls. Any call moves as many bytes as it can.
#[derive(Drop)]
pub struct MemSource {
    bytes: List<u8>,
    next: usize,
    failing: List<u64>,
    calls: u64,
    faults: Faults,
}

impl Model for MemSource {
    ghost use Rattle.std.specs.Prelude.{drop, ◌≤◌, length};
    ghost use Rattle.ax_io.specs.Memory as memory;

    ghost Value = { memory.MemInput };

    ghost view = { λ a. record {
      content = drop a.next a.bytes;
      failing = a.failing;
      calls = a.calls;
      faults = a.faults;
    } };

    ghost invariant = { λ a. a.next ≤ length a.bytes };
}

impl MemSource {
    /// The source of these bytes. Each number names a call that fails, counted from 1 over all calls
    /// of this source.
    pub fn new(bytes: List<u8>, failing: List<u64>) -> MemSource
        ensures { result ≡ record { content = bytes; failing = failing; calls = 0; faults = 0 } }
    {
        MemSource {
            bytes,
            next: 0,
            failing,
            calls: 0,
            faults: Faults::new(),
        }
    }
}

impl Source for MemSource {
    ghost use Rattle.ax_io.specs.Memory as memory;

    ghost faults = { λ s. s.faults };

    ghost content = { λ s. Some s.content };

    fn read(&mut self, buf: &mut [u8]) -> Result<usize, Failed>
        ensures counted { counts.Counted self.old.faults self.new.faults result }
        ensures ok { IfOk result (λ n. content.Moves (Some self.old.content) (Some self.new.content) n buf.old buf.new) }
        ensures failed { OnErr result (content.MovesNothing (Some self.old.content) (Some self.new.content) buf.old buf.new) }

        ensures named { IsErr result ↔ IsTrue (memory.fails_next self.old) }
        ensures count { IfOk result (λ n. n ≡ min (length buf.old) (length self.old.content)) }
        ensures after { self.new ≡ memory.after_read self.old (length buf.old) }
        ensures buffer { buf.new ≡ memory.buffer_after_read self.old buf.old }
    {
        self.calls = self.calls.saturating_add(1);
        if self.failing.as_slice().contains(&self.calls) {
            return Err(self.faults.raise());
        }
        let rest = &self.bytes.as_slice()[self.next..];
        let n = rest.len().min(buf.len());
        buf[..n].copy_from_slice(&rest[..n]);
        self.next += n;
        Ok(n)
    }
}

/// A sink that keeps its bytes in memory, and fails at given calls. Want of memory is a fault of it.
#[derive(Drop)]
pub struct MemSink {
    taken: List<u8>,
    failing: List<(u64, u64)>,
    calls: u64,
    faults: Faults,
}

impl Model for MemSink {
    ghost use Rattle.ax_io.specs.Memory as memory;

    ghost Value = { memory.MemOutput };

    ghost view = { λ a. record {
      content = a.taken;
      failing = a.failing;
      calls = a.calls;
      faults = a.faults;
    } };
}

impl MemSink {
    ghost use Rattle.ax_io.specs.Memory as memory;

    /// A sink with no bytes. The first of each pair names a call that fails, counted from 1 over all
    /// calls of this sink, and the second is the number of bytes kept of that call, where it has so
    /// many. Of two pairs for one call the first counts.
    pub fn new(alloc: Global, failing: List<(u64, u64)>) -> MemSink
        ensures { result ≡ record { content = []; failing = failing; calls = 0; faults = 0 } }
    {
        MemSink {
            taken: List::new(alloc),
            failing,
            calls: 0,
            faults: Faults::new(),
        }
    }

    /// The bytes taken so far.
    pub fn taken(&self) -> &List<u8>
        ensures { result.now ≡ self.now.content }
    {
        &self.taken
    }

    /// How many bytes are kept of the next call, where it is one that fails.
    fn kept_next(&self) -> Option<u64>
        ensures { result ≡ memory.kept_next self.now }
    {
        let call = self.calls.saturating_add(1);
        self.failing
            .iter()
            .find(|pair| pair.0 == call)
            .map(|pair| pair.1)
    }
}

impl Sink for MemSink {
    ghost use Rattle.ax_io.specs.Memory as memory;

    ghost faults = { λ s. s.faults };

    ghost content = { λ s. Some s.content };

    // After want of memory nothing is kept, also of a call that fails by its number.
    fn put(&mut self, bytes: &[u8]) -> Result<(), Failed>
        ensures counted { counts.Counted self.old.faults self.new.faults result }
        ensures ok { OnOk result (Some self.new.content ≡ content.append_told (Some self.old.content) bytes.now) }
        ensures failed { OnErr result (content.TakesFront (Some self.old.content) (Some self.new.content) bytes.now) }

        ensures not_named { OnOk result (IsNone (memory.kept_next self.old)) }
        ensures after { OnOk result (self.new ≡ memory.after_put self.old bytes.now) }
        ensures after_failed { OnErr result ((self.new ≡ memory.after_fault self.old [])
            ⊎ (self.new ≡ memory.after_fault self.old (take (unwrap_or (memory.kept_next self.old) 0) bytes.now))) }
    {
        let kept = self.kept_next();
        self.calls = self.calls.saturating_add(1);
        if let Some(kept) = kept {
            let kept = bytes.len().min(kept as usize);
            let _ = self.taken.extend_from_slice(&bytes[..kept]);
            return Err(self.faults.raise());
        }
        if self.taken.extend_from_slice(bytes).is_err() {
            return Err(self.faults.raise());
        }
        Ok(())
    }
}
