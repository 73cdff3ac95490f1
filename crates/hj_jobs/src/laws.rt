//! What crates above cite of the definitions. No function here does anything: its contract is the law.

ghost use Rattle.hj_jobs.specs.Laws.{JobsKeepTheirRuns};

/// If each happening may come after those before it, as each call of a table says of the one that it adds, what each job did is what its
/// hub means for its turns, no job has two turns in a round, and none that is due is passed over.
pub fn jobs_keep_their_runs<Job>()
    ensures { JobsKeepTheirRuns Job }
{}
