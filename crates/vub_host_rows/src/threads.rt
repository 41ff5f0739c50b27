use std::test::Fail;
use vub_threads::{CallSpawner, Job, Spawner, StdTask, Task, start_job};

/// Doubles its number.
#[derive(Debug, Drop)]
struct Double(u32);

impl Job for Double {
    type Out = u64;

    ghost use Rattle.std.specs.Prelude.{◌≡◌, ◌*◌};

    ghost gives = { λ job out. out ≡ 2 * job.0 };

    fn run(self) -> u64 {
        2 * u64::from(self.0)
    }
}

#[test]
fn a_task_gives_the_result_of_its_job(rt: HostRuntime) -> Result<(), Fail> {
    let alloc = rt.alloc();
    let mut spawner = CallSpawner::new(|job: Double| start_job(rt, alloc, job));
    let Ok(first) = spawner.spawn("first", Double(21)) else {
        return Err(Fail::new("no first thread"));
    };
    let Ok(second) = (&mut spawner).spawn("second", Double(u32::MAX)) else {
        return Err(Fail::new("no second thread"));
    };
    assert_eq!(rt; second.join(), 8_589_934_590);
    assert_eq!(rt; first.join(), 42);
    assert_eq!(rt; spawner.faults(), 0);
    Ok(())
}

#[test]
fn a_refused_job_is_counted_and_handed_back(rt: HostRuntime) -> Result<(), Fail> {
    let mut spawner = CallSpawner::new(|job: Double| -> Result<
        StdTask<HostRuntime, Double>,
        Double,
    > { Err(job) });
    match spawner.spawn("refused", Double(7)) {
        Ok(_) => return Err(Fail::new("a thread")),
        Err(job) => assert_eq!(rt; job.0, 7),
    }
    assert_eq!(rt; spawner.faults(), 1);
    Ok(())
}
