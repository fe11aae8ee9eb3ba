// The judge as C calls it.
#![tactic(auto)]

ghost use Rattle.std.specs.Prelude.{◌≡◌, ◌≤◌, length, take};
ghost use Rattle.judge.specs.JobLaws.{Reported};
ghost use Rattle.judge.specs.Reports.{least_report, answered, left_in};

use judge::report::{judge as judge_on_rows, judge_flat as judge_on_flat};

/// Writes the report on a job file into the buffer, then zeros to its end, and answers the report's length.
/// A buffer under `LEAST_REPORT` bytes is left as it is, and the answer is 0. The file is judged on the
/// row store.
#[unsafe(no_mangle)]
pub extern "C" fn judge(file: &[u8], report: &mut [u8]) -> usize
    ensures value { result ≡ answered 64 file.now (length report.old) }
    ensures after { report.new ≡ left_in 64 file.now report.old }
    ensures law { least_report ≤ length report.old → Reported file.now (take result report.new) }
{
    judge_on_rows(file, report)
}

/// The same, judged on the flat store.
#[unsafe(no_mangle)]
pub extern "C" fn judge_flat(file: &[u8], report: &mut [u8]) -> usize
    ensures value { result ≡ answered 64 file.now (length report.old) }
    ensures after { report.new ≡ left_in 64 file.now report.old }
    ensures law { least_report ≤ length report.old → Reported file.now (take result report.new) }
{
    judge_on_flat(file, report)
}
