ghost use Rattle.std.specs.Prelude.{◌≡◌, ℕ, Result, OnOk, OnErr};
ghost use Rattle.vub_base.specs.Causes.{Rose};
ghost use Rattle.vub_threads.specs.Tasks.{Started};

/// What a thread runs. That it may cross to a thread is asked where threads are started.
pub trait Job {
    type Out;

    // which results the job may give
    ghost gives: { Self → Self.Out → Type 0 };

    /// Runs the job.
    fn run(self) -> Self::Out
        ensures { gives self result };
}

/// A job that was started.
pub trait Task<O> {
    // which results it may have
    ghost promised: { Self → O → Type 0 };

    /// Waits until the job has ended, and gives its result.
    fn join(self) -> O
        ensures { promised self result };
}

/// Who starts jobs. It counts the jobs that it could not start: the count never falls, and a refused job is handed
/// back.
pub trait Spawner<J: Job> {
    type Task: Task<J::Out> + Drop;

    // how many jobs it could not start
    ghost fault_count: { Self → ℕ };

    // whether it may be asked to start a job; each call keeps it
    ghost can_spawn: { Self → Type 0 };

    /// How many jobs it could not start. The count never falls.
    fn faults(&self) -> u64
        ensures { result ≡ fault_count self.now };

    /// Starts a job in a thread of this name, or refuses and hands the job back.
    fn spawn(&mut self, name: &str, job: J) -> Result<Self::Task, J>
        requires { can_spawn self.old }
        ensures started { Started Self.Task.promised J.gives job result }
        ensures ok { OnOk result (fault_count self.new ≡ fault_count self.old) }
        ensures err { OnErr result (Rose (fault_count self.old) (fault_count self.new)) }
        ensures can { can_spawn self.new };
}
