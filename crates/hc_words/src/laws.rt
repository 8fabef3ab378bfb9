ghost use Rattle.std.specs.Prelude.{◌≡◌, ℕ, List};
ghost use Rattle.hc_words.specs.IsJob.{IsJob};
ghost use Rattle.hc_words.specs.declared.job.Job.{Job};

/// Words have at most one job.
pub fn one_job()
    ensures { (words : List (List ℕ)) (job other : Job) → IsJob words job → IsJob words other → job ≡ other }
{}
