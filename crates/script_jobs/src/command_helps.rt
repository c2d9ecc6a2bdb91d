//! What the prompt says of each command.

/// By keyword the form of the command and what it does, in a line.
const HELPS: [(&[u8], &str); 23] = [
    (
        b"open",
        "open A [JOINER] [deadline=N] [move-on] [shield]: A opens a scope inside its innermost one\n",
    ),
    (b"fork", "fork A S NAME: A forks a task into its scope S\n"),
    (
        b"reject",
        "reject K: no thread was to be had for task K, so it never runs\n",
    ),
    (b"start", "start K: the thread of task K starts\n"),
    (b"ok", "ok K VALUE: task K succeeds\n"),
    (b"fail", "fail K NAME: task K fails\n"),
    (
        b"cancel",
        "cancel S: S is cancelled, with all inside it up to shields\n",
    ),
    (
        b"move",
        "move S N, move S never: the deadline of S is now N, or S has none\n",
    ),
    (b"tick", "tick N: the time is now N, in milliseconds\n"),
    (
        b"bind",
        "bind A NAME VALUE: A binds VALUE to NAME, for itself and what it forks later\n",
    ),
    (b"unbind", "unbind A: A takes back its last binding\n"),
    (
        b"join",
        "join A S: A joins its scope S, once, and has its outcome\n",
    ),
    (
        b"close",
        "close A S: A begins to close S, which cancels it\n",
    ),
    (
        b"closed",
        "closed A S: A ends the close of S, in which no task waits or runs\n",
    ),
    (
        b"retire",
        "retire A: main, whose scopes are all closed, discards its history\n",
    ),
    (b"state", "state K: whether a result of task K counts\n"),
    (b"stage", "stage K: how far task K is\n"),
    (
        b"result",
        "result A K: the value of task K, for the owner of its scope\n",
    ),
    (
        b"fault",
        "fault A K: the failure of task K, for the owner of its scope\n",
    ),
    (b"cause", "cause S: why S is cancelled\n"),
    (b"until", "until S: the deadline that counts for S\n"),
    (
        b"counts",
        "counts S: how many tasks of S are at each stage\n",
    ),
    (b"get", "get A NAME: what NAME is bound to for A\n"),
];

/// What is said of the command with this keyword, if there is one.
pub(crate) fn help_on(word: &[u8]) -> Option<&'static str> {
    for (keyword, text) in &HELPS {
        if *keyword == word {
            return Some(text);
        }
    }
    None
}
