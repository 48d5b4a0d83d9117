//! A run, from two sources to a sink.

ghost use Rattle.std.specs.Prelude.{◌≡◌, ◌<◌, ◌+◌, ◌-◌, ◌++◌, [], None, Ok, IfOk, IfErr, IfSome, OnOk};
ghost use Rattle.ingest.specs.RecordFaults.{first_fault, TakesRecords};
ghost use Rattle.byte_io.specs.Devices.{CanStillFail};
ghost use Rattle.ingest.specs.Counted.{AreReadFor};
ghost use Rattle.ingest.specs.Records.{partition_counts, records_in, records_of};
ghost use Rattle.ingest.specs.Reports.{AreInRange, MakesIfKnown, CountsFailures, IsFaultOf, IsNoDeviceFault, IsNoStop, IsNoWrite, ReadsFileFirst, WritesAtEndAlone, failed_reads, failed_writes};
ghost use Rattle.run_report.specs.Private.Runs.{EndsRun, IsRunOver};
ghost use Rattle.report_rows.specs.ReplayRows.{closing_rows, move_rows};
ghost use Rattle.run_report.specs.RunReport.{WritesRunIfKnown, report_of_plan, report_of_run};
ghost use Rattle.lane_words.specs.declared.Refusal.TheVariants as refusal;
ghost use Rattle.partition_log.specs.Logs.{AreLogsOf};
ghost use Rattle.script.specs.Plan.{plan_answer};

use byte_io::{Sink, Source, read_all, write_all};
use command_line::Options;
use group_machine::Cluster;
use ingest::{FileRecords, file_records, logs_of};
use lane_words::Refusal;
use partition_log::SealedLogs;
use report_rows::{replay_rows, rows};
use script::{Plan, Topic, read_plan};
use std::alloc::Global;
use std::random::RandomSource;
use std::sync::Wait;
use std::thread::Threads;
use workers::{Gate, Outcome, run_cluster};

fn script_plan<S: Source>(alloc: Global, script: &mut S) -> Result<Plan, Refusal>
    requires { CanStillFail (S.failures script.old) }
    ensures plan { IfOk result (λ plan. IfSome (S.left script.old)
        (λ bytes. plan_answer bytes ≡ Ok plan)) }
    ensures fault { IfErr result (λ e. IfSome (S.left script.old)
        (λ bytes. IsFaultOf (plan_answer bytes) e)) }
    ensures kind { IfErr result IsNoWrite }
    ensures unstopped { IfErr result IsNoStop }
    ensures reads { S.failures script.new ≡ S.failures script.old + failed_reads result }
{
    let bytes = read_all(alloc, script)?;
    read_plan(alloc, bytes.as_slice())
}

/// The logs of these records, which are dropped, since the logs have a copy of each key.
fn sealed_logs<R: Threads + RandomSource + Sync>(
    rt: &R,
    alloc: Global,
    records: FileRecords,
    options: &Options,
) -> Result<SealedLogs, Refusal>
    requires options { AreInRange options.now }
    requires topics { AreReadFor options.now records }
    ensures logs { IfOk result (AreLogsOf (records_in records)) }
    ensures counts { IfOk result (λ logs. logs.counts ≡ partition_counts options.now) }
    ensures answer { TakesRecords (partition_counts options.now) (records_in records) result }
{
    let logs = logs_of(rt, alloc, &records, options)?;
    records.drop_parallel(rt);
    Ok(logs.seal())
}

/// Runs a plan over the logs of these records.
fn outcome_of<R: Threads + Wait + RandomSource + Sync, G: Gate + Sync>(
    rt: &R,
    alloc: Global,
    records: FileRecords,
    plan: &Plan,
    options: &Options,
    gate: &G,
) -> Result<Outcome, Refusal>
    requires options { AreInRange options.now }
    requires topics { AreReadFor options.now records }
    ensures value { IfOk result
        (IsRunOver (partition_counts options.now) (records_in records) plan.now) }
    ensures ok { OnOk result
        (first_fault (partition_counts options.now) [] (records_in records) ≡ None) }
    ensures kind { IfErr result IsNoDeviceFault }
    ensures fault { IfErr result
        (EndsRun (report_of_plan options.now (records_in records) plan.now)) }
{
    let logs = sealed_logs(rt, alloc, records, options)?;
    run_cluster(rt, alloc, &logs, plan, options.batch, gate)
}

/// The text of a run that ended: all moves, and the closing rows. Only an allocation can fail.
fn text_of_end<R: Threads + Sync>(
    rt: &R,
    alloc: Global,
    topics: &[Topic],
    top: Option<u32>,
    cluster: &Cluster,
) -> Result<Vec<u8>, Refusal>
    ensures report { IfOk result (λ text. text.items
        ≡ move_rows topics.now cluster.now.group cluster.now.group.moves
        ++ closing_rows topics.now top cluster.now) }
    ensures kind { IfErr result (λ e. e ≡ refusal.Memory) }
{
    let mut writer = rows::new_writer(alloc);
    replay_rows::write_moves(&mut writer, topics, cluster, 0)?;
    Ok(replay_rows::closing_text(rt, alloc, writer, topics, top, cluster)?)
}

/// The text of a run of a plan over these records.
fn report_of_plan<R: Threads + Wait + RandomSource + Sync, G: Gate + Sync>(
    rt: &R,
    alloc: Global,
    records: FileRecords,
    plan: &Plan,
    options: &Options,
    gate: &G,
) -> Result<Vec<u8>, Refusal>
    requires options { AreInRange options.now }
    requires topics { AreReadFor options.now records }
    ensures report { IfOk result
        (λ text. report_of_plan options.now (records_in records) plan.now ≡ Ok text.items) }
    ensures kind { IfErr result IsNoDeviceFault }
    ensures fault { IfErr result
        (EndsRun (report_of_plan options.now (records_in records) plan.now)) }
{
    let outcome = outcome_of(rt, alloc, records, plan, options, gate)?;
    let topics = options.topics.as_slice();
    text_of_end(rt, alloc, topics, options.top, outcome.cluster())
}

/// The text of a run of a script's plan over a file.
fn devices_report<R: Threads + Wait + RandomSource + Sync, S: Source, T: Source, G: Gate + Sync>(
    rt: &R,
    alloc: Global,
    file: &mut S,
    script: &mut T,
    options: &Options,
    gate: &G,
) -> Result<Vec<u8>, Refusal>
    requires file { CanStillFail (S.failures file.old) }
    requires script { CanStillFail (T.failures script.old) }
    requires options { AreInRange options.now }
    ensures report { MakesIfKnown EndsRun (report_of_run options.now)
        (S.left file.old) (T.left script.old) result }
    ensures kind { IfErr result IsNoWrite }
    ensures reads { CountsFailures (S.failures file.old) (S.failures file.new)
        (T.failures script.old) (T.failures script.new) result }
    ensures order { ReadsFileFirst (records_of options.now) (S.left file.old)
        (S.failures file.old) (S.failures file.new) script.old script.new result }
{
    let records = file_records(rt, alloc, file, options)?;
    let plan = script_plan(alloc, script)?;
    report_of_plan(rt, alloc, records, &plan, options, gate)
}

/// Runs a plan over the keys of a CSV file, with a thread for each member, and writes a row for
/// each move, for each partition's owner and for its offsets, and the rows of a count of the keys;
/// with `top`, of only so many keys. With topics, the rows name a partition by its topic and its
/// number there. The text is the same for every schedule of the threads.
///
/// The whole file is read and parsed before the script is, and the whole text is made before the
/// first write. So after `WriteFailed` a prefix of the text is written, and after any other refusal
/// nothing. Whether a run ends is up to its threads and to its gate, which is asked before each
/// commit.
///
/// Errors, in this order:
/// - `ReadFailed`: a read failed.
/// - The first bad record: `BadCsv` if it has another number of fields than the first record,
///   `NoSuchColumn` if it lacks a column, `NoSuchTopic` if its topic is none of those given. The
///   script is then not read.
/// - The first bad line: `BadLine` if it is not a valid line of a plan or contradicts the lines
///   before it, `NobodyLeft` if no member is left after it.
/// - The first record that can't be appended: `KeyTooLong`, `LogFull`.
/// - `GateLimit`: the gate stopped the run. `Differs`: the run differed from what it was given.
/// - `WriteFailed`: a write failed.
/// - `Memory`, at any point: an allocation failed, a thread could not be started, or the system had
///   no random bytes.
pub fn run_text<
    R: Threads + Wait + RandomSource + Sync,
    S: Source,
    T: Source,
    G: Gate + Sync,
    K: Sink,
>(
    rt: &R,
    alloc: Global,
    file: &mut S,
    script: &mut T,
    options: &Options,
    gate: &G,
    out: &mut K,
) -> Result<(), Refusal>
    requires file { CanStillFail (S.failures file.old) }
    requires script { CanStillFail (T.failures script.old) }
    requires sink { CanStillFail (K.failures out.old) }
    requires options { AreInRange options.now }
    ensures report { WritesRunIfKnown (report_of_run options.now)
        (S.left file.old) (T.left script.old) (K.written out.old) (K.written out.new) result }
    ensures end { WritesAtEndAlone (K.written out.old) (K.written out.new) result }
    ensures reads { CountsFailures (S.failures file.old) (S.failures file.new)
        (T.failures script.old) (T.failures script.new) result }
    ensures order { ReadsFileFirst (records_of options.now) (S.left file.old)
        (S.failures file.old) (S.failures file.new) script.old script.new result }
    ensures writes { K.failures out.new ≡ K.failures out.old + failed_writes result }
{
    let text = devices_report(rt, alloc, file, script, options, gate)?;
    write_all(out, text.as_slice())
}
