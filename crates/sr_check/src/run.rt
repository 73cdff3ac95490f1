//! A task from the beginning of its stream to its end.
ghost use Rattle.std.specs.Prelude.{◌≡◌, ◌≢◌, OnOk, Err};
ghost use Rattle.std.specs.Io.KnownBytes.{IsAtEnd};
ghost use Rattle.hd_facts.specs.Counts.{one_more};
ghost use Rattle.sr_check.specs.Stream.{IsDone, IsStopped, IsBegun, IsAllSoFar, IsPart, IsTouchedByBytesAlone, ReadsNoFurther};
ghost use Rattle.hd_facts.specs.Writes.{Writes, WritesPart, WritesOfRead};

use crate::stream::{MOST_FRAME, follow};
use crate::task::{Stop, Task};
use hf_split::Splitter;
use hm_codec::framing;
use hw_io::{Sink, Source};
use std::alloc::Global;

impl Task {
    /// Reads a stream of frames of at most 32,768 bytes each, in pieces of 4,096 bytes, and writes what the task writes
    /// of the frames that a piece makes whole before it reads the next, up to the first that is refused.
    ///
    /// A fault that came is never passed over: the source has failed no more often than before unless this answers
    /// `ReadFault`, and the sink unless it answers `WriteFault`. Then that one has failed once more and the other hasn't, so
    /// neither is asked again after a call that failed. Where nothing was written the sink wasn't touched, unless it failed.
    pub fn run<S: Source, K: Sink>(
        self,
        alloc: Global,
        input: &mut S,
        out: &mut K,
    ) -> Result<(), Stop>
        ensures done { OnOk result (IsAtEnd (S.left input.new) × Writes (IsDone self) (S.left input.old) (K.holds out.old) (K.holds out.new)) }
        ensures refused { result ≡ Err Stop.Refused → Writes (IsStopped self) (S.left input.old) (K.holds out.old) (K.holds out.new) }
        ensures read_fault { result ≡ Err Stop.ReadFault → (S.faults input.new ≡ one_more (S.faults input.old))
            × WritesOfRead (IsAllSoFar self) (S.left input.old) (S.left input.new) (K.holds out.old) (K.holds out.new) }
        ensures write_fault { result ≡ Err Stop.WriteFault → (K.faults out.new ≡ one_more (K.faults out.old))
            × WritesPart (IsPart self) (S.left input.old) (K.holds out.old) (K.holds out.new) }
        ensures no_memory { result ≡ Err Stop.NoMemory → Writes (IsBegun self) (S.left input.old) (K.holds out.old) (K.holds out.new) }
        ensures no_further { ReadsNoFurther self (S.left input.old) (S.left input.new) }
        ensures source_unfailed { result ≢ Err Stop.ReadFault → S.faults input.new ≡ S.faults input.old }
        ensures sink_unfailed { result ≢ Err Stop.WriteFault → K.faults out.new ≡ K.faults out.old }
        ensures touched { result ≢ Err Stop.WriteFault → IsTouchedByBytesAlone K.holds out.old out.new }
    {
        let mut splitter = Splitter::start(alloc, framing(self.codec()), MOST_FRAME)?;
        follow(alloc, self, &mut splitter, input, out)
    }
}
