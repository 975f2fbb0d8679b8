// What a worker passes before each job.

/// A place that a worker passes before each job's first call of the cache. It changes nothing of the round: a test sees
/// by it which jobs run at once.
pub trait Gate: Sync {
    /// Passes before this job, which is counted from 0 among the round's jobs.
    fn pass(&self, job: usize);
}

/// A gate that is open.
#[derive(Clone, Copy, Debug)]
pub struct OpenGate;

impl Gate for OpenGate {
    fn pass(&self, job: usize) {
        let _ = job;
    }
}
