// The call: a file and a buffer in, the report in the buffer and its length out.
ghost use Rattle.std.specs.Prelude.{◌≡◌, ℕ, ◌≤◌, length, take};
ghost use Rattle.jobs.specs.Texts.{least_report};
ghost use Rattle.judge.specs.JobLaws.{Reported};
ghost use Rattle.judge.specs.Layouts.{JobsAddressed};
ghost use Rattle.judge.specs.Reports.{answered, left_in};

use crate::verdict::report_accepted;
use jobs::report::write_report;
pub use jobs::text::LEAST_REPORT;
use rowstore::rows::Rows;
use stores::flat::Flat;
use stores::store::Store;

// The report on a file, judged in the store. A buffer that is too small is answered before the file is read.
fn report_from<S: Store>(file: &[u8], report: &mut [u8], store: S) -> usize
    requires layout { JobsAddressed S.row }
    ensures value { result ≡ answered (S.Store.capacity store) file.now (length report.old) }
    ensures after { report.new ≡ left_in (S.Store.capacity store) file.now report.old }
{
    if report.len() < LEAST_REPORT {
        return 0;
    }
    write_report(report_accepted(file, store), report)
}

/// Writes the report on a job file into the buffer, then zeros to its end, and answers the report's length.
/// A buffer under `LEAST_REPORT` bytes is left as it is, and the answer is 0. The file is judged on the
/// row store.
pub fn judge(file: &[u8], report: &mut [u8]) -> usize
    ensures value { result ≡ answered 64 file.now (length report.old) }
    ensures after { report.new ≡ left_in 64 file.now report.old }
    ensures law { least_report ≤ length report.old → Reported file.now (take result report.new) }
{
    report_from(file, report, Rows::new())
}

/// The same, judged on the flat store. A call of its own, since C names each by its symbol.
pub fn judge_flat(file: &[u8], report: &mut [u8]) -> usize
    ensures value { result ≡ answered 64 file.now (length report.old) }
    ensures after { report.new ≡ left_in 64 file.now report.old }
    ensures law { least_report ≤ length report.old → Reported file.now (take result report.new) }
{
    report_from(file, report, Flat::new())
}

/// Judges the file on both stores, and answers the length of each report.
/// The two buffers end alike where they are of one length that is enough.
pub fn judge_twice(file: &[u8], rows: &mut [u8], flat: &mut [u8]) -> (usize, usize)
    ensures same { length rows.old ≡ length flat.old → least_report ≤ length rows.old
        → (rows.new ≡ flat.new) × (result.0 ≡ result.1) }
    ensures rows { (result.0 ≡ answered 64 file.now (length rows.old)) × (rows.new ≡ left_in 64 file.now rows.old) }
    ensures flat { (result.1 ≡ answered 64 file.now (length flat.old)) × (flat.new ≡ left_in 64 file.now flat.old) }
{
    let first = judge(file, rows);
    let second = judge_flat(file, flat);
    (first, second)
}
