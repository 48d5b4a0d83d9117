//! What `--help` prints below the options. `release/generate` makes the tables of the man page from
//! it: the name of an entry begins in column 3, and its text in column 28.

/// Literals and parts that several commands share, concatenated. `concat!` takes literals alone, so
/// the macro replaces the parts one by one, and collects the literals in brackets.
macro_rules! text {
    ([$($done:literal)*]) => {
        concat!($($done),*)
    };
    ([$($done:literal)*] $next:literal $($rest:tt)*) => {
        text!([$($done)* $next] $($rest)*)
    };
    ($done:tt changes $($rest:tt)*) => {
        text!($done
            "  join NAME                a new member joins the group\n"
            "  leave NAME               the member leaves the group\n"
            "  lose NAME                the group removes the member, which is not notified\n"
            $($rest)*)
    };
    ($done:tt script_lines $($rest:tt)*) => {
        text!($done
            "Lines of a script:\n"
            changes
            "  keep NAME                a new static member joins: its seat can be taken over\n"
            "  return NAME              a new member takes over the seat of the static member \
                NAME\n"
            "  sync NAME                the member fetches its assignment\n"
            "  rejoin NAME              the member revokes what it has to give up, and rejoins\n"
            "  poll NAME P N            the member reads at most N records of partition P\n"
            "  send NAME P              the member sends a commit of what it has read of \
                partition P\n"
            "  deliver C                commit C is delivered and answered; commits count from 1\n"
            "  unanswered C             as deliver, but the answer is lost\n"
            "  append KEY               a record with this key is appended\n"
            "  settle                   the members sync and rejoin until the rebalance \
                is complete\n"
            "  drain                    as settle; then the members read and commit all records\n"
            comment
            "With --topics: poll NAME TOPIC P N, send NAME TOPIC P, append TOPIC KEY\n\n"
            $($rest)*)
    };
    ($done:tt script_faults $($rest:tt)*) => {
        text!($done
            faults_20_and_21 fault_22 faults_23_to_26
            "  fault 31                 " case_31 "\n"
            faults_32_and_90
            $($rest)*)
    };
    ($done:tt comment $($rest:tt)*) => {
        text!($done
            "  # TEXT                   a comment; empty lines are skipped too\n"
            $($rest)*)
    };
    ($done:tt rows $($rest:tt)*) => {
        text!($done
            "Rows, as CSV on standard output:\n"
            $($rest)*)
    };
    ($done:tt move_row $($rest:tt)*) => {
        text!($done
            "  move,GEN,P,OLD,NEW       generation GEN moved partition P from OLD to NEW\n"
            $($rest)*)
    };
    ($done:tt owner_row $($rest:tt)*) => {
        text!($done
            "  owner,P,NAME             the member that owns partition P at the end\n"
            $($rest)*)
    };
    ($done:tt count_rows $($rest:tt)*) => {
        text!($done
            "  count,KEY,N              the number of records with this key; keys come in order\n"
            "                           of first appearance, or with --top in order of N\n"
            "  total,N,N                the number of records, twice\n"
            $($rest)*)
    };
    ($done:tt topics_note $($rest:tt)*) => {
        text!($done
            "With --topics, each P is preceded by the name of a topic, and is a partition of it.\n"
            $($rest)*)
    };
    ($done:tt faults_20_and_21 $($rest:tt)*) => {
        text!($done
            "\nFaults, as one line on standard error; only fault 26 can come after output:\n"
            "  fault 20                 " case_20 "\n"
            "  fault 21                 " case_21 "\n"
            $($rest)*)
    };
    ($done:tt fault_22 $($rest:tt)*) => {
        text!($done
            "  fault 22 at line N       " case_22 "\n"
            "                           " case_22_more "\n"
            $($rest)*)
    };
    ($done:tt faults_23_to_26 $($rest:tt)*) => {
        text!($done
            "  fault 23 at record N     " case_23 "\n"
            "  fault 24 at record N     " case_24 "\n"
            "  fault 25                 " case_25 "\n"
            "  fault 26                 " case_26 "\n"
            $($rest)*)
    };
    ($done:tt faults_32_and_90 $($rest:tt)*) => {
        text!($done
            "  fault 32 at record N     " case_32 "\n"
            "  fault 90                 " case_90 "\n"
            "keycount explain CODE tells more of a fault, and of the code of a refusal.\n"
            "keycount check tells where in FILE or SCRIPT a fault is, and all others there.\n"
            "\nExit status:\n"
            "  0                        success\n"
            "  1                        invalid input: faults 20 to 24, 27 and 32\n"
            "  2                        invalid command line\n"
            "  3                        all other faults\n"
            $($rest)*)
    };
    ($done:tt case_20 $($rest:tt)*) => {
        text!($done "a key is longer than 65,535 bytes" $($rest)*)
    };
    ($done:tt case_21 $($rest:tt)*) => {
        text!($done "more than 4,294,967,295 keys, or records in one partition" $($rest)*)
    };
    ($done:tt case_22 $($rest:tt)*) => {
        text!($done "line N is not a valid script line, or not valid at this" $($rest)*)
    };
    ($done:tt case_22_more $($rest:tt)*) => {
        text!($done "point of a plan" $($rest)*)
    };
    ($done:tt case_23 $($rest:tt)*) => {
        text!($done "record N has no such column" $($rest)*)
    };
    ($done:tt case_24 $($rest:tt)*) => {
        text!($done "record N has more or fewer fields than the first record" $($rest)*)
    };
    ($done:tt case_25 $($rest:tt)*) => {
        text!($done "a file could not be opened or read" $($rest)*)
    };
    ($done:tt case_26 $($rest:tt)*) => {
        text!($done "the output could not be written completely" $($rest)*)
    };
    ($done:tt case_27 $($rest:tt)*) => {
        text!($done "no member is left after line N; line 0: the plan has no join" $($rest)*)
    };
    ($done:tt case_28 $($rest:tt)*) => {
        text!($done "the result of the threads does not match file and plan" $($rest)*)
    };
    ($done:tt case_31 $($rest:tt)*) => {
        text!($done "a line of the script would exceed generation 4,294,967,295" $($rest)*)
    };
    ($done:tt case_32 $($rest:tt)*) => {
        text!($done "the topic of record N is not listed in --topics" $($rest)*)
    };
    ($done:tt case_90 $($rest:tt)*) => {
        text!($done "out of memory, or a thread could not be started" $($rest)*)
    };
    ($done:tt nothing_changed $($rest:tt)*) => {
        text!($done "State:   Nothing has changed.\n" $($rest)*)
    };
    ($done:tt nothing_printed $($rest:tt)*) => {
        text!($done "State:   Nothing was printed.\n" $($rest)*)
    };
    ($done:tt from_file $($rest:tt)*) => {
        text!($done "Jobs:    all that read FILE; exit status 1\n" $($rest)*)
    };
    ($done:tt in_scripts $($rest:tt)*) => {
        text!($done "Jobs:    replay, trace, draw: " $($rest)*)
    };
    ($done:tt in_no_job $($rest:tt)*) => {
        text!($done "Jobs:    none; callers of the library can meet it at " $($rest)*)
    };
    ($done:tt kept_by_client $($rest:tt)*) => {
        text!($done "Kafka:   No such error; the client library keeps this order.\n" $($rest)*)
    };
    ($done:tt commit_accepted $($rest:tt)*) => {
        text!($done "Kafka:   No such error; the broker accepts the commit.\n" $($rest)*)
    };
}

pub(crate) use text;

/// Below the options of `keycount`.
pub const AFTER_KEYCOUNT: &str = "\
Rows are printed on standard output, and a fault as one line on standard error. The help of a
command lists both, keycount explain tells what a code means, and keycount check where a fault is.

Example:
  printf '21\\n4\\n21\\n' | keycount count -";

/// Below the options of `count`.
pub const AFTER_COUNT: &str = text!([]
    rows count_rows
    faults_20_and_21 faults_23_to_26 faults_32_and_90
    "\nExample:\n"
    "  printf '21\\n4\\nfoobar\\nabc\\n21\\n' > keys.csv\n"
    "  keycount count keys.csv"
);

/// Below the options of `place`.
pub const AFTER_PLACE: &str = text!([]
    "Rows, as CSV on standard output: a header with these columns, and a row for each partition:\n"
    "  partition                the partition\n"
    "  records,keys             the number of its records, and of its different keys\n"
    "  largest                  its most frequent key; of several the one that came first\n"
    "  records_of_largest       the number of records with that key\n"
    "Rows with --keys, in order of first appearance; with --topics one for each that has the key:\n"
    "  key,partition,records    the key, its partition, and the number of its records there\n"
    "Rows with --given: one for each record that is not where its key belongs, of the first 20:\n"
    "  record                   the number of the record, from 1, header included\n"
    "  key,given,place          its key, the field in column N, and the partition of the key\n"
    "With --topics, partition and place follow a column topic, and are partitions of it.\n"
    "With --given, the exit status is 1 if there is a row.\n"
    faults_20_and_21 faults_23_to_26 faults_32_and_90
    "\nExample:\n"
    "  printf '21\\n4\\nfoobar\\nabc\\n21\\n' > keys.csv\n"
    "  keycount place keys.csv | column -ts,"
);

/// Below the options of `check`.
pub const AFTER_CHECK: &str = text!([]
    "Rows, as CSV on standard output: a header with these columns, and a row for each problem:\n"
    "  input                    file or script\n"
    "  code                     the fault that a job would report if it came first\n"
    "  record                   the number of the record, from 1, header included\n"
    "  line                     the line that it begins on, from 1\n"
    "  byte                     its first byte, from 0\n"
    "  problem                  what was found, and what was wanted\n"
    "First come the bad records of FILE, then the bad lines of SCRIPT, and then warnings, \
        which have\n"
    "no code: FILE is empty, or begins like a gzip, zstd or UTF-16 file; its first record is one\n"
    "field with a tab or a semicolon in it; its last field is in quotes that are never closed.\n"
    "The exit status is 1 if a row has a code.\n"
    "\nFaults, as one line on standard error:\n"
    "  fault 25                 " case_25 "\n"
    "  fault 26                 " case_26 "\n"
    "  fault 90                 " case_90 "\n"
    "\nExit status:\n"
    "  0                        success\n"
    "  1                        invalid input: faults 20 to 24, 27 and 32\n"
    "  2                        invalid command line\n"
    "  3                        all other faults\n"
    "\nExample:\n"
    "  printf '21,a\\n4\\nabc,b\\n' > keys.csv\n"
    "  keycount check keys.csv"
);

/// Below the options of `replay`.
pub const AFTER_REPLAY: &str = text!([]
    script_lines
    rows move_row
    "  refused,LINE,CODE        this line of the script was refused; the script continues\n"
    owner_row
    "  offset,P,COMMITTED,END   the committed offset and the end offset of partition P\n"
    "  count,KEY,N              the number of committed records with this key\n"
    "  total,COMMITTED,ALL      the number of committed records, and of all records\n"
    topics_note script_faults
    "\nExamples:\n"
    "  printf '21\\n4\\nfoobar\\nabc\\n21\\n' > keys.csv\n"
    "  printf 'join A\\njoin B\\nsettle\\ndrain\\n' | keycount replay keys.csv -\n"
    "  printf '21,a\\nabc,b\\n21,b\\n4,a\\n4,b\\n' > topics.csv\n"
    "  printf 'join A\\nsettle\\njoin B\\ndrain\\n' | keycount replay --topics a:2,b:3 topics.csv -"
);

/// Below the options of `trace`.
pub const AFTER_TRACE: &str = text!([]
    script_lines
    "Rows, as CSV on standard output: a header with these columns, and a row for each event:\n"
    "  line,step                the line of the script, and which of its rows this is; a settle\n"
    "                           or drain has a row for each event that it chooses, and a last one\n"
    "  event                    the event, by its word in a script\n"
    "  member                   the member that it is about; who sent a commit that is delivered\n"
    "  partition                the partition of a poll, a commit or an accepted append\n"
    "  from,to                  the positions before and after a poll, or a commit's offsets\n"
    "  commit                   the number of the commit\n"
    "  code,reason              why it was refused, by number and in words; else empty\n"
    "  generation,phase         of the group afterwards, as are all further columns\n"
    "  waiting                  the members that have not joined the rebalance\n"
    "  granted                  each member, and the partitions granted to it: A 0-1 3;B 2\n"
    "  unread                   the partitions that no member reads\n"
    "  lag                      the number of records that are not committed\n"
    "With --topics, partition follows a column topic, and each range of partitions a \
        topic's name.\n"
    script_faults
    "\nExample:\n"
    "  printf '21\\n4\\nfoobar\\nabc\\n21\\n' > keys.csv\n"
    "  printf 'join A\\njoin B\\ndrain\\n' | keycount trace keys.csv - | column -ts,"
);

/// Below the options of `draw`.
pub const AFTER_DRAW: &str = text!([]
    script_lines
    "The picture, as SVG on standard output: a lane for each range of partitions that had the\n"
    "same owners and readers, in the readers' colours, and hatched red where nobody reads; a\n"
    "column for each event that shows, under its line of the script; dashed lines where\n"
    "generations begin; polls with their offsets; commits as arcs, from where they are sent to a\n"
    "tick where they are accepted, or to a cross where they are refused, and why. Below: when\n"
    "partitions had no reader, and how many records were read more than once.\n"
    script_faults
    "\nExample:\n"
    "  printf '21\\n4\\nfoobar\\nabc\\n21\\n' > keys.csv\n"
    "  printf 'join A\\nsettle\\nlose A\\njoin B\\ndrain\\n' | keycount draw keys.csv - > group.svg"
);

/// Below the options of `run`.
pub const AFTER_RUN: &str = text!([]
    "Lines of a plan; at least one member must remain after each:\n"
    changes comment
    "\n"
    rows move_row owner_row
    "  offset,P,END,END         the end offset of partition P, twice: all is committed\n"
    count_rows topics_note
    "The rows do not depend on how the threads are scheduled.\n"
    faults_20_and_21 fault_22 faults_23_to_26
    "  fault 27 at line N       " case_27 "\n"
    "  fault 28                 " case_28 "\n"
    faults_32_and_90
    "\nExample:\n"
    "  printf '21\\n4\\nfoobar\\nabc\\n21\\n' > keys.csv\n"
    "  printf 'join A\\njoin B\\nleave A\\n' | keycount run keys.csv -"
);

/// Below the options of `explain`.
pub const AFTER_EXPLAIN: &str = text!([]
    "A line for each refusal and fault: its number, its name, and what was the case. Of one CODE\n"
    "also: the jobs that report it, its cause, the state that it leaves, a remedy, and \
        Kafka's own\n"
    "error, if there is one.\n"
    "\nFaults, as one line on standard error:\n"
    "  fault 26                 " case_26 "\n"
    "  fault 90                 " case_90 "\n"
    "\nExit status:\n"
    "  0                        success\n"
    "  2                        invalid command line\n"
    "  3                        all other faults\n"
    "\nExample:\n"
    "  keycount explain 22"
);
