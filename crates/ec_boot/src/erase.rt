// What a block that is done leaves of an erase.
ghost use Rattle.std.specs.Prelude.{◌≡◌, ◌+◌, ◌<◌, ◌^◌};
ghost use Rattle.ec_model.specs.Erasing.{job_left, saved_after};

use ec_model::EraseJob;
use ec_types::status;

/// The erase that is left once its next block is done.
pub fn left(job: EraseJob) -> Option<EraseJob>
    requires { job.next + job.left < 2 ^ 32 }
    ensures { result ≡ job_left job }
{
    if job.left <= 1 {
        None
    } else {
        Some(EraseJob {
            next: job.next + 1,
            left: job.left - 1,
        })
    }
}

/// The status that is saved once a block is done: success at the last one.
pub fn saved(job: EraseJob, saved: u16) -> u16
    ensures { result ≡ saved_after job saved }
{
    if job.left <= 1 {
        status::SUCCESS
    } else {
        saved
    }
}
