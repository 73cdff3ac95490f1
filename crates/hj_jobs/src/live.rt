//! The live jobs, by number. Numbers are drawn here and not by the other side, so a hashed map serves.

ghost use Rattle.std.specs.Prelude.{◌≡◌, ◌<◌, ℕ, ◌∷◌, [], None, IfOk, OnOk, OnErr};
ghost use Rattle.hd_calls.specs.Weights.{input_weight};
ghost use Rattle.hj_jobs.specs.Counted.{counted};
ghost use Rattle.hj_jobs.specs.Entries.{IsTurned};
ghost use Rattle.hj_jobs.specs.Live.{Alters, PreparesAt, awaits_at, entry_at, Gains, HasRoom, is_due_at, is_unmarked_at, IsAnswered, IsFed, IsMarked, live_count, Loses, Retains, waits_at};
ghost use Rattle.hj_jobs.specs.Meaning.{meaning};

use crate::entry::Entry;
use crate::hub::Hub;
use crate::weight::{count_of, plus, swapped};
use hd_calls::{Act, CallKind, Input, MOST_LIVE};
use hv_value::Text;
use indexmap::IndexMap;
use std::alloc::{AllocError, Global};

/// Most connections have fewer live jobs: for these the table grows as they come.
const FEW: usize = 16;

/// A job had the hub's part of its turn. `job` is its number, from 1 in order of acceptance; `id` and `kind` are those of its call.
#[derive(Drop)]
pub struct Stepped {
    pub job: u64,
    pub id: Option<Text>,
    pub kind: CallKind,
    pub act: Act,
}

/// What is kept of each live job.
#[derive(Drop)]
pub struct Live<J: Drop> {
    entries: IndexMap<u64, Entry<J>>,
    /// What all of them count together.
    weight: u64,
}

impl<J: Drop> Live<J> {
    pub(crate) fn start(alloc: Global) -> Live<J>
        ensures entries { (n : ℕ) → entry_at result n ≡ None }
        ensures count { live_count result ≡ 0 }
        ensures weight { result.weight ≡ 0 }
    {
        Live {
            entries: IndexMap::new(alloc),
            weight: 0,
        }
    }

    /// How many jobs are live.
    pub(crate) fn len(&self) -> usize
        ensures { result ≡ live_count self.now }
    {
        self.entries.len()
    }

    /// What is kept of all of them counts this.
    pub(crate) fn weight(&self) -> u64
        ensures { result ≡ self.now.weight }
    {
        self.weight
    }

    /// Whether the job is live and has a turn to come.
    pub(crate) fn is_due(&self, number: u64) -> bool
        ensures { result ≡ is_due_at (entry_at self.now number) }
    {
        match self.entries.get(&number) {
            Some(entry) => entry.is_due(),
            None => false,
        }
    }

    /// How many inputs wait at the job.
    pub(crate) fn waiting(&self, number: u64) -> usize
        ensures { result ≡ waits_at (entry_at self.now number) }
    {
        match self.entries.get(&number) {
            Some(entry) => entry.inputs.len(),
            None => 0,
        }
    }

    /// Whether the input answers the job's last ask or deed, and nothing did before.
    pub(crate) fn awaits(&self, number: u64, input: &Input) -> bool
        ensures { result ≡ awaits_at (entry_at self.now number) input.now }
    {
        match self.entries.get(&number) {
            Some(entry) => entry.is_open_for(input),
            None => false,
        }
    }

    /// Whether the job is live and wasn't cancelled.
    pub(crate) fn is_unmarked(&self, number: u64) -> bool
        ensures { result ≡ is_unmarked_at (entry_at self.now number) }
    {
        match self.entries.get(&number) {
            Some(entry) => !entry.is_cancelled,
            None => false,
        }
    }

    /// Takes room for one more job.
    pub(crate) fn reserve(&mut self) -> Result<(), AllocError>
        ensures ok { OnOk result (HasRoom self.new) }
        ensures entries { Retains self.old self.new }
    {
        self.entries.reserve(more_than(self.entries.len()))
    }

    /// A job is live now, whose number is new. There is room for it.
    pub(crate) fn insert(&mut self, number: u64, entry: Entry<J>)
        requires { HasRoom self.old }
        ensures { entry_at self.old number ≡ None → Gains self.old self.new number entry }
    {
        self.weight = plus(self.weight, entry.weight);
        let _ = self.entries.insert(number, entry);
    }

    /// A job isn't live any more: what was kept of it.
    pub(crate) fn remove(&mut self, number: u64) -> Option<Entry<J>>
        ensures result { result ≡ entry_at self.old number }
        ensures lost { Loses self.old self.new number }
    {
        let Some(entry) = self.entries.swap_remove(&number) else {
            return None;
        };
        self.weight = self.weight.saturating_sub(entry.weight);
        Some(entry)
    }

    /// The job is marked as cancelled.
    pub(crate) fn mark(&mut self, number: u64)
        ensures { Alters self.old self.new number IsMarked }
    {
        if let Some(entry) = self.entries.get_mut(&number) {
            entry.is_cancelled = true;
        }
    }

    /// The job's ask or deed is answered.
    pub(crate) fn answer(&mut self, number: u64, input: Input)
        ensures { Alters self.old self.new number (IsAnswered input) }
    {
        if let Some(entry) = self.entries.get_mut(&number) {
            let before = entry.weight;
            entry.weight = plus(before, count_of(&input));
            entry.reply = Some(input);
            self.weight = swapped(self.weight, before, entry.weight);
        }
    }

    /// Something came from an upload of the job, which counts this much.
    pub(crate) fn feed(&mut self, number: u64, input: Input, count: u64) -> Result<(), AllocError>
        requires { count ≡ counted (input_weight input) }
        ensures ok { OnOk result (Alters self.old self.new number (IsFed (input ∷ []))) }
        ensures unchanged { OnErr result (Alters self.old self.new number (IsFed [])) }
        ensures weight { OnErr result (self.new.weight ≡ self.old.weight) }
    {
        let Some(entry) = self.entries.get_mut(&number) else {
            return Ok(());
        };
        if entry.inputs.push_back(input).is_err() {
            return Err(AllocError);
        }
        let before = entry.weight;
        entry.weight = plus(before, count);
        self.weight = swapped(self.weight, before, entry.weight);
        Ok(())
    }

    /// The hub's part of the job's turn, if it has one to come. `turned` is the rest.
    pub(crate) fn prepare<H: Hub<Job = J>>(
        &mut self,
        alloc: Global,
        hub: &H,
        number: u64,
        now: u64,
    ) -> Result<Option<Stepped>, AllocError>
        ensures ok { IfOk result (λ stepped. PreparesAt (meaning H.begin_of H.step_of) self.old self.new number now stepped) }
        ensures unchanged { OnErr result (Retains self.old self.new) }
    {
        let Some(entry) = self.entries.get_mut(&number) else {
            return Ok(None);
        };
        let id = copy_of(&entry.id)?;
        let kind = entry.kind;
        let Some(act) = entry.prepare(alloc, hub, now)? else {
            return Ok(None);
        };
        Ok(Some(Stepped {
            job: number,
            id,
            kind,
            act,
        }))
    }

    /// The rest of the job's turn, at which it did this.
    pub(crate) fn turned(&mut self, number: u64, act: &Act)
        ensures { Alters self.old self.new number (IsTurned act.now) }
    {
        if let Some(entry) = self.entries.get_mut(&number) {
            let before = entry.weight;
            entry.turned(act);
            self.weight = swapped(self.weight, before, entry.weight);
        }
    }
}

/// For how many more jobs room is taken where this many are live: past a few for as many as may be live, so that a growing table isn't
/// copied again and again.
fn more_than(live: usize) -> usize
    ensures { 0 < result }
{
    if live < FEW {
        return 1;
    }
    (MOST_LIVE as usize).saturating_sub(live).max(1)
}

fn copy_of(id: &Option<Text>) -> Result<Option<Text>, AllocError>
    ensures { IfOk result (λ copy. copy ≡ id.now) }
{
    match id {
        Some(text) => Ok(Some(text.copy()?)),
        None => Ok(None),
    }
}
