//! What `--help` and `--version` print: of each command its words, limits, an example and the statuses.

/// What the words after the program's name ask to be told.
#[derive(Clone, Copy, Debug, PartialEq, Eq)]
pub enum Question {
    /// Help for all commands.
    Help,
    /// Help for `plan`.
    Plan,
    /// Help for `audit`.
    Audit,
    /// Help for `replay`.
    Replay,
    /// The version.
    Version,
}

const ABOUT: &str = "\
far_memory keeps users' files and queues in memory that is cut into fixed slices, and
divides the slices among users by a credit rule.

    far_memory plan USERS FAIR FLOOR CREDITS
    far_memory audit USERS FAIR FLOOR CREDITS
    far_memory replay USERS FAIR FLOOR CREDITS SLICE
    far_memory COMMAND --help | --help | -h | --version

Each command reads its lines from standard input and writes to standard output.
Numbers are decimals without a sign or a leading zero: USERS 1 to 1024, FAIR (slices
of each user) 1 to 4294967296, FLOOR (of these never lent) 0 to FAIR, CREDITS (of
each user at the start) 0 to 1152921504606846976.
";

const PLAN: &str = "
far_memory plan USERS FAIR FLOOR CREDITS
    A line of input has the demand of each user, in slices, at most 4398046511104, and
    is one quantum. Each line brings a block of four lines: the quantum's number, the
    demands, the slices given and the credits left. At most 268435456 quanta.
    Example:
        $ echo 3 2 1 | far_memory plan 3 2 1 5
        quantum 0
        demand 3 2 1
        slices 3 2 1
        credits 4 5 6
";

const AUDIT: &str = "
far_memory audit USERS FAIR FLOOR CREDITS
    Reads such blocks and says whether each is the rule's for the demands that it
    prints and the credits of the block before; else which line isn't, and what should
    stand there.
    Example:
        $ echo 3 2 1 | far_memory plan 3 2 1 5 | far_memory audit 3 2 1 5
        ok 1
";

const REPLAY: &str = "
far_memory replay USERS FAIR FLOOR CREDITS SLICE
    Runs a script over a store of USERS times FAIR slices of SLICE bytes (64 to 65536,
    all slices together at most 1073741824), as yet for one user. Each line is answered
    by its outcome, and then by a line for each block that left or came into a slice.
    At most 4294967296 lines:
        draw                      the pool's lowest slice moves into the hand
        grant U                   the slice that came last into the hand goes to user U
        make U PATH KIND SPAN     a new file or queue, whose lease ends after SPAN; KIND
                                  is file or queue
        append U PATH E           bytes at the end of a file; E is an escaped text
        read U PATH FROM LEN      bytes of a file
        length U PATH             the length of a file
        push U PATH E             an item at the end of a queue, of SLICE - 4 bytes at most
        pop U PATH                the first item of a queue, which is then gone
        front U PATH              the first item of a queue, which stays
        count U PATH              how many items a queue has
        park U PATH               the blocks of a name move into the store
        load U PATH               the parked blocks of a name come back into slices
    Example:
        $ printf 'draw\\ngrant 0\\nmake 0 f file 9\\nappend 0 f hello\\n' | far_memory replay 1 4 4 0 64
        slice 0 0
        granted 0 1
        done
        number 5
        + 0 2 f 0
";

const STATUSES: &str = "
The exit status; any but 0 is explained in a line on standard error:
    0  the input was read to its end
    2  bad words after the program's name
    3  a bad line of input, or one of more than 262144 bytes
    4  reading failed
    5  writing failed
    6  want of memory
    7  a line after the last one that is taken
    9  a line of the log isn't what the rule gives (audit)
";

const VERSION: &str = "far_memory 0.1.0\n";

/// Whether a word asks for help.
fn is_help(word: &String) -> bool {
    matches!(word.as_bytes(), b"--help" | b"-h")
}

/// What the words ask to be told, if they do: `--help`, `-h` and `--version` as the first word, and `--help` and `-h` right
/// after a command's name.
pub fn question_of(words: &[String]) -> Option<Question> {
    let (first, others) = words.split_first()?;
    if is_help(first) {
        return Some(Question::Help);
    }
    if matches!(first.as_bytes(), b"--version") {
        return Some(Question::Version);
    }
    if !is_help(others.first()?) {
        return None;
    }
    match first.as_bytes() {
        b"plan" => Some(Question::Plan),
        b"audit" => Some(Question::Audit),
        b"replay" => Some(Question::Replay),
        _ => None,
    }
}

/// What is told, in parts that follow each other.
pub fn parts(question: Question) -> [&'static str; 5] {
    match question {
        Question::Help => [ABOUT, PLAN, AUDIT, REPLAY, STATUSES],
        Question::Plan => [PLAN, STATUSES, "", "", ""],
        Question::Audit => [AUDIT, STATUSES, "", "", ""],
        Question::Replay => [REPLAY, STATUSES, "", "", ""],
        Question::Version => [VERSION, "", "", "", ""],
    }
}
