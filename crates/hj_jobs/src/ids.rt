//! The ids of live jobs and of their open streams. The other side chooses them, so they are keys of an ordered map and not of a
//! hashed one.

ghost use Rattle.std.specs.Prelude.{◌≡◌, ℕ, List, None, Option, Some, OnOk, OnErr, IfErr, if◌then◌else◌};
ghost use Rattle.hd_calls.specs.Rules.{same_id};
ghost use Rattle.hj_jobs.specs.Ids.{AreFree, AreOpenable, AreSame, Claims, Closes, ClosesThose, is_of, IsUnclaimed, IsUnopened, job_at, Opens, OpensOne, Releases, stream_at};

use crate::errors::AcceptError;
use hv_value::Text;
use std::alloc::{AllocError, Global};
use std::collections::BTreeMap;

/// A stream of a job's call, by its place there.
#[derive(Clone, Copy, Debug, PartialEq, Eq)]
pub struct Stream {
    pub(crate) job: u64,
    pub(crate) which: u32,
}

/// Who has which id, and whose the open streams are.
#[derive(Drop)]
pub struct Ids {
    ids: BTreeMap<Text, u64>,
    streams: BTreeMap<Text, Stream>,
}

impl Ids {
    pub(crate) fn start(alloc: Global) -> Ids
        ensures ids { (i : List ℕ) → job_at result i ≡ None }
        ensures streams { (i : List ℕ) → stream_at result i ≡ None }
    {
        Ids {
            ids: BTreeMap::new(alloc),
            streams: BTreeMap::new(alloc),
        }
    }

    /// The number of the job that has the id.
    pub(crate) fn job(&self, id: &Text) -> Option<u64>
        ensures { result ≡ job_at self.now id.now }
    {
        self.ids.get(id).copied()
    }

    /// The open stream of the id.
    pub(crate) fn stream(&self, id: &Text) -> Option<Stream>
        ensures { result ≡ stream_at self.now id.now }
    {
        self.streams.get(id).copied()
    }

    /// A job takes its id and the ids of its streams.
    pub(crate) fn claim(
        &mut self,
        job: u64,
        id: &Option<Text>,
        streams: &[Text],
    ) -> Result<(), AcceptError>
        ensures free { OnOk result (AreFree self.old id.now streams.now) }
        ensures ok { OnOk result (Claims self.old self.new job id.now streams.now) }
        ensures refused { IfErr result (IsUnclaimed self.old id.now streams.now) }
        ensures unchanged { OnErr result (AreSame self.old self.new) }
    {
        self.test_id(id)?;
        self.open(job, streams)?;
        if self.take_id(job, id).is_err() {
            self.close_those_of(job, streams);
            return Err(AcceptError::NoMemory);
        }
        Ok(())
    }

    /// Whether the id may be claimed: no job has it.
    fn test_id(&self, id: &Option<Text>) -> Result<(), AcceptError>
        ensures ok { OnOk result ((i : List ℕ) → id.now ≡ Some i → job_at self.now i ≡ None) }
        ensures refused { IfErr result (λ e. (streams : List (List ℕ)) → IsUnclaimed self.now id.now streams e) }
    {
        let Some(id) = id else {
            return Ok(());
        };
        if self.ids.contains_key(id) {
            return Err(AcceptError::InUse(id.copy()?));
        }
        Ok(())
    }

    /// A job takes the id, which nobody has.
    fn take_id(&mut self, job: u64, id: &Option<Text>) -> Result<(), AllocError>
        ensures ok { OnOk result ((i : List ℕ) → job_at self.new i ≡ (if same_id (Some i) id.now then Some job else job_at self.old i)) }
        ensures unchanged { OnErr result ((i : List ℕ) → job_at self.new i ≡ job_at self.old i) }
        ensures streams { (i : List ℕ) → stream_at self.new i ≡ stream_at self.old i }
    {
        let Some(id) = id else {
            return Ok(());
        };
        let copy = id.copy()?;
        match self.ids.insert(copy, job) {
            Ok(_) => Ok(()),
            Err(_) => Err(AllocError),
        }
    }

    /// A job takes the ids of its streams. If one can't be taken, those before it are given up.
    fn open(&mut self, job: u64, streams: &[Text]) -> Result<(), AcceptError>
        ensures free { OnOk result (AreOpenable self.old streams.now) }
        ensures ok { OnOk result (Opens self.old self.new job streams.now) }
        ensures refused { IfErr result (λ e. (id : Option (List ℕ)) → IsUnclaimed self.old id streams.now e) }
        ensures unchanged { OnErr result (AreSame self.old self.new) }
    {
        for (place, stream) in streams.iter().enumerate() {
            if let Err(error) = self.open_one(job, place, stream) {
                self.close_those_of(job, &streams[..place]);
                return Err(error);
            }
        }
        Ok(())
    }

    /// A job takes the id of the stream at this place.
    fn open_one(&mut self, job: u64, place: usize, stream: &Text) -> Result<(), AcceptError>
        ensures free { OnOk result (stream_at self.old stream.now ≡ None) }
        ensures ok { OnOk result (OpensOne self.old self.new job place stream.now) }
        ensures refused { IfErr result (IsUnopened self.old stream.now) }
        ensures unchanged { OnErr result (AreSame self.old self.new) }
    {
        if self.streams.contains_key(stream) {
            return Err(AcceptError::InUse(stream.copy()?));
        }
        let Ok(which) = u32::try_from(place) else {
            return Err(AcceptError::NoMemory);
        };
        let copy = stream.copy()?;
        match self.streams.insert(copy, Stream { job, which }) {
            Ok(_) => Ok(()),
            Err(_) => Err(AcceptError::NoMemory),
        }
    }

    /// A job gives up its id and those of its streams that are open. It takes no memory.
    pub(crate) fn release(&mut self, job: u64, id: &Option<Text>, streams: &[Text])
        ensures { Releases self.old self.new job id.now streams.now }
    {
        if let Some(id) = id {
            self.ids.remove(id);
        }
        self.close_those_of(job, streams);
    }

    /// Those of these streams that are the job's aren't open any more.
    fn close_those_of(&mut self, job: u64, streams: &[Text])
        ensures { ClosesThose self.old self.new job streams.now }
    {
        for stream in streams {
            if self.is_of(job, stream) {
                self.streams.remove(stream);
            }
        }
    }

    /// Whether this is an open stream of the job.
    fn is_of(&self, job: u64, stream: &Text) -> bool
        ensures { result ≡ is_of job (stream_at self.now stream.now) }
    {
        match self.stream(stream) {
            Some(open) => open.job == job,
            None => false,
        }
    }

    /// A stream isn't open any more. It takes no memory.
    pub(crate) fn close(&mut self, id: &Text)
        ensures { Closes self.old self.new id.now }
    {
        self.streams.remove(id);
    }
}
