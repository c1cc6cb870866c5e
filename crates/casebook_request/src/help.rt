//! What the program says of itself.
ghost use Rattle.std.specs.Prelude.{◌≡◌};
ghost use Rattle.casebook_request.specs.Request.{help_text};

use crate::document_help::{DOCUMENTS, LISTS, PROFILE, REFUSALS};
use crate::folder_help::{COMPARE, RESTORE, SCRIPT, SNAPSHOT};
use crate::recorder_help::{IMPORT, LOG, OBSERVE, STATUS};
use crate::topic::Topic;

/// Help on the program.
const PROGRAM: &str = "\
casebook - what an intruder's commands led to, and what to do about it

A log holds lines of shell, what each line read and wrote, and what it printed.
`retro record` makes it of a script that somebody wrote: it plays the lines in
retro's own shell. What people's shells do on a real machine `casebook observe`
keeps in a spool, and `casebook import` writes as a document, a case. Each command
takes a case where it takes a log (see casebook help import).

casebook reads a log or a case. It shows which lines there are, and what would be if
some of them had never run: which files to restore, whom to tell what, and what
leaked. It says which lines retro's shell didn't understand. It changes nothing but a
folder that it is told to restore, and spools.

    casebook lines LOG [FILTER..] [--format text|tsv|numbers]
        Which lines are in the log, who ran them, what they read and wrote.
    casebook show LOG --cancel LIST [--why] [--diff] [--line N] [--format text|json]
        What would be without the lines of LIST.
    casebook page LOG --cancel LIST [--title TEXT] [--all]
        The same as a page for a browser: one HTML file, on standard output.
    casebook cat LOG PATH|--line N --cancel LIST
        One file as it would be, or what line N would print: the bytes themselves.
    casebook patch LOG --cancel LIST
        What would change in files, as a patch for `git apply`.
    casebook check DOCUMENT
        Whether a log is a recording, and if not, which line isn't as it notes; of
        another document, whether it is a case or a script, and why it is refused.
    casebook snapshot FOLDER|--tar FILE [--at PATH] [--skip PATH]..
        What is in a folder, or in a stream that tar wrote, as a document.
    casebook script DOCUMENT --sessions FILE --lines FILE
        A script of such a document and two tables, for `retro record`.
    casebook compare LOG FOLDER|--tar FILE|--snapshot DOCUMENT [--at PATH] ..
        Whether what a log has at its end is what a folder holds.
    casebook restore LOG --cancel LIST --root FOLDER [--at PATH] [--only PATH]..
                     [--apply --undo FILE]
        What would change in a folder, and with --apply the change itself.
    casebook observe [--start] SPOOL [FOLDER..]
        Keeps what lines do in folders: for the hook of the recorder.
    casebook import SPOOL
        What was kept, as a document: a case.
    casebook status SPOOL [--who FILE]
        Whether the recorder works: since when, whose sessions, and what is missing.
    casebook log CASE
        A log that explains it, line by line, for retro.
    casebook help [lines|show|page|cat|patch|check|snapshot|script|compare|restore|
                   observe|import|status|log|lists|documents|refusals|profile]
        This text, or more on a command, on lists of lines, on the documents that
        casebook reads, on why it refuses them, or on what a line may be.

LOG is the name of a log or of a case, or - for standard input.

From a log to an answer:

 1. Find the lines of the intruder. Say that he used session 5, and that you know
    that he changed the price list:

        casebook lines log.json --session 5
        casebook lines log.json --writes /srv/shop/prices

    The first column is the number of a line, and the second its session. Below a
    line is what it read, what it wrote (+ put, > appended, - removed) and the
    start of what it printed. A line with ? wasn't understood:

        casebook lines log.json --unknown

 2. Write down the lines that shouldn't have run. Session 5 but for lines 41 and
    44, which were honest, is the list 5:all,-41,-44 (see casebook help lists).

 3. See what would be without them:

        casebook show log.json --cancel 5:all,-41,-44

    ?        how many lines weren't understood, and which: what they did isn't in
             the answer
    RESTORE  the files that would be different now, and by how many lines:
             M changes, A comes back, D goes
    TELL     the sessions whose lines printed what would have been different, by
             the path that it came from: their users were misled, so tell them
    LEAKED   the cancelled lines that showed something: the intruder saw this
    READ     the files and directories of which edited lines read what is in them
    CAUSES   what each edited line led to, and which paths it wrote

    --why adds why each line with another result was run again, --diff how files
    and screens differ. One line in full, or all of it for a browser:

        casebook show log.json --cancel 5:all,-41,-44 --line 183
        casebook page log.json --cancel 5:all,-41,-44 > incident.html

 4. If somebody else's line is at fault too, or one of the lines was honest,
    change the list, and look again.

 5. See whether a copy of the machine's files is as the log has it at its end, see
    what would change in it, and change it:

        casebook compare log.json /mnt/copy
        casebook restore log.json --cancel 5:all,-41,-44 --root /mnt/copy
        casebook restore log.json --cancel 5:all,-41,-44 --root /mnt/copy
                         --apply --undo undo.json

The answer is that of retro's shell: whether the machine did the same isn't known.
What a line did that wasn't understood isn't in it (see casebook help profile). If
a log isn't what its lines do in retro's shell, the second row of `show` says so.

With --about FILE the answers have the names of users and the times of lines (see
casebook help documents).

The same repair for programs, with the files that are to be restored:

    retro repair --cancel NUMBERS < log.json

NUMBERS is what `casebook lines .. --format numbers` prints.

Exit status: 0 done, 1 the words or a document are refused, 2 out of memory,
3 a read or a write failed, 4 `check`, `compare` or `restore` says no. With 1 and 2,
and if a read failed, nothing is written to standard output, and standard error has
one line that says why.
";

/// Help on the command `lines`.
const LINES: &str = "\
casebook lines LOG [FILTER..] [--format FORMAT]

Shows the lines of a log, in order. With filters it shows the lines for which all
of them hold. LOG is the name of a file, or - for standard input.

    --session S       session S ran the line
    --user NAME       a session with this name ran the line (see --about)
    --from N          the line's number is at least N
    --to N            the line's number is at most N
    --from TIME       the line's time is TIME or later (see --about)
    --to TIME         the line's time is TIME or before
    --reads PATH      the line asked about PATH: read it, listed it, or tested
                      whether it is there. A listing counts for its directory
                      alone.
    --writes PATH     the line wrote to PATH, made it or removed it
    --touches PATH    the line did one or the other
    --text REGEX      REGEX is found in the line
    --shown REGEX     REGEX is found in what the line printed
    --unknown         the line wasn't understood (see casebook help profile); of a
                      case: it stands as it was observed

    --about FILE      shows the names of users and the times of lines

PATH begins with a slash. With a slash at the end, as /srv/shop/, it also means
all paths below it. REGEX is a regular expression, as in `grep -E`: ^ and $ are the
ends of a line. TIME is a date and a time of day, as '2025-05-06 10:30', or a date
alone. With --to a time of day without seconds lasts a minute, and a date a day.
Times are in UTC. The time of a line of a case is that of its end. A line of which no
time is known passes no TIME.

    --format text     one to five rows a line: number, session and line, with ?
                      before a line that wasn't understood, and why, and with o
                      before one that stands as it was observed; what it read;
                      what it wrote (+ put, > appended, - removed); how much it
                      printed, and the start of it. The default.
    --format tsv      one row a line, with tabs between the fields: number, time,
                      session, its name, line, what it printed, and then =PATH for
                      each path that it read, and +PATH, >PATH or -PATH for each
                      that it wrote
    --format numbers  the numbers, with commas between them: a list for
                      `casebook show --cancel` and for `retro repair --cancel`.
                      If no line passes, the list is empty, and cancels nothing.

Bytes of the log that could do harm in a terminal are shown by their codes, as
\u{27E8}U+001B\u{27E9} or \u{27E8}FF\u{27E9}.

Examples:

    casebook lines log.json --session 5
    casebook lines log.json --writes /etc/ --from 90 --to 400
    casebook lines log.json --about about.json --from '2025-05-06 10:30'
    casebook lines log.json --text '^rm ' --format numbers
    retro record < script.json | casebook lines -
";

/// Help on the command `show`.
const SHOW: &str = "\
casebook show LOG --cancel LIST [--why] [--diff] [--line N] [--about FILE]
casebook show LOG --cancel LIST --format json [--about FILE]

Shows what would be if the lines of LIST hadn't run. LOG is the name of a file, or
- for standard input. `casebook help lists` says what a LIST is.

    --why         adds, for each line that is run again with another result, the
                  first thing that it asked about and that isn't as noted, with
                  the answer before and after, and the lines that it comes from,
                  back to a cancelled one
    --diff        adds unified diffs of the files that differ, and of what lines
                  printed
    --line N      shows line N in full instead: what it asked and changed, and what
                  it printed, as recorded and without the lines of LIST
    --about FILE  shows the names of users and the times of lines
    --format json the summary for programs, with what becomes of each line and why;
                  docs/FORMATS.md describes it
    --replace EDITS
                  lines that run another text, as a JSON list of numbers and texts:
                  '[[4,\"cat /srv/prices\"]]'. With it --cancel may be left out.
    --workers N   N more threads run lines ahead
    --cuts NUMBERS
                  how many lines are run ahead at once, with commas; the last number
                  holds from there on. With neither option none is run ahead. The
                  answer is the same.

On a terminal that has colours, unless NO_COLOR is set, heads are bold, lines of
differences that come are green and those that go are red.

The screen has these parts:

    N lines of N sessions. N cancelled.
    That retro's shell does what the log notes. If it doesn't, all below is only
    what its notes say. Of a case: how many lines stand as they were observed, which
    aren't told apart, which changes no recorded line made, of which sessions lines
    have no record, and where it wasn't always seen what lines only read.

    ? How many lines weren't understood, how many of them are cancelled, and their
    numbers by reason. What they did isn't in the answer, so below they leak
    nothing, tell nobody and cause nothing that is known. `casebook help profile`
    has the reasons. Or: Every line was understood.
    Of a case: ? how many lines have to be run for real, and their numbers. What they
    depend on would be another, so what they would do isn't known. Until then they
    stand as they were observed, and so does what followed from them: of that only the
    paths that they wrote are below.
    Or: No line has to be run for real. Modes and owners aren't followed: a line that
    a mode stopped or let through, which would be another, isn't counted.

    How many lines are cancelled; are run again, with another result or with the
    same; read or wrote what differs but are kept as recorded; or have nothing to
    do with it.

    RESTORE  each path that would be different at the end:
             M changes, A comes back, D goes; lines that come (+) and go (-);
             ? if a line wrote it that wasn't understood, or has to be run for real. With
             ? alone, such a line wrote the path, and it isn't different as long as the
             line stands as it was observed
    TELL     session, path, how often, which lines: what these lines printed would
             have been different, since the path would have been
    LEAKED   cancelled lines that printed something, and how many bytes; of observed
             lines it isn't known
    READ     the files and directories of which each edited line read what is in them,
             printed or not; of an observed line those that it may have read
    CAUSES   each cancelled line, how many lines have another result because of it,
             how many were run again alike, and the paths that it wrote

Each line that is run again counts for the cancelled line at which its chain of
causes ends.

Examples:

    casebook show log.json --cancel 90,92,96-98
    casebook show log.json --cancel 5:all,-41,-44 --why
    casebook show log.json --cancel @intruder.txt --line 183
";

/// Help on the command `page`.
const PAGE: &str = "\
casebook page LOG --cancel LIST [--title TEXT] [--all] [--about FILE]

Writes what `casebook show` shows, and all lines, as one HTML file for a browser. It
asks for nothing from a network, and can be read without JavaScript. With it, / is
a search, j and k go to the next and the previous line that isn't as recorded, o
opens what is under the cursor, and e opens or closes all.

    --title TEXT  the title, otherwise the name of the log
    --all         all lines. Without it, if the log has over 5,000 lines, those that
                  nothing reached are counted, and aren't shown.
    --about FILE  shows the names of users and the times of lines
    --replace EDITS, --workers N, --cuts NUMBERS
                  as in casebook help show

Nothing of the log gets into the page but as text.

Example:

    casebook page log.json --cancel @intruder.txt --title 'May 6' > incident.html
";

/// Help on the command `cat`.
const CAT: &str = "\
casebook cat LOG PATH --cancel LIST
casebook cat LOG --line N --cancel LIST

Writes the bytes that the file at PATH would have at the end, without the lines of
LIST, or what line N would print. PATH begins with a slash. It writes the bytes as
they are, and an intruder may have made them: see them by `less` or `cat -v`, and
not on a terminal itself.

    --replace EDITS, --workers N, --cuts NUMBERS
                  as in casebook help show

Nothing is written, and the exit status is 1, if there would be no file at PATH: if
nothing would be there, or a directory, or a link, a device or a file that a case
doesn't keep. The same is so if line N is cancelled, or isn't there.

With --replace '[]' in the place of --cancel no line is cancelled: the file is as it
was at the end, and line N prints what it printed.

Examples:

    casebook cat log.json /srv/shop/prices --cancel 5:all,-41,-44 > prices
    casebook cat log.json --line 183 --cancel @intruder.txt | less
";

/// Help on the command `patch`.
const PATCH: &str = "\
casebook patch LOG --cancel LIST

Writes what would be different in files at the end, without the lines of LIST, as a
patch in git's form: from what is recorded to what would be. In a copy of the folder
that is the root of the log:

    casebook patch log.json --cancel 5:all,-41,-44 > incident.patch
    git apply --check incident.patch
    git apply incident.patch
    git apply -R incident.patch

`patch -p1` takes it too where all files are text. A patch has no directories that
are empty, no modes, and nothing of what a case doesn't keep: a line on standard
error says how many paths it leaves out, and `casebook show` names them.

    --replace EDITS, --workers N, --cuts NUMBERS
                  as in casebook help show
";

/// Help on the command `check`.
const CHECK: &str = "\
casebook check DOCUMENT

Says whether a log is as its lines run: whether running them one by one, from the
files that it begins with, gives the notes and outputs that it has. If not, it says
which line is the first that isn't as noted, with what is noted and what the line
does. Of a case it says how many lines it has, and how many of them stand as they
were observed. If the document is no log, no case and no script, it says why.

Exit status: 0 a recording, a case or a script, 4 another log, or none of these.

If a log isn't as its lines run, what was recorded is only what its notes say.
";

/// Returns the help on a topic.
pub fn help_text(topic: Topic) -> &'static str
    ensures { result.now ≡ help_text topic }
{
    match topic {
        Topic::Program => PROGRAM,
        Topic::Lines => LINES,
        Topic::Show => SHOW,
        Topic::Page => PAGE,
        Topic::Cat => CAT,
        Topic::Patch => PATCH,
        Topic::Check => CHECK,
        Topic::Snapshot => SNAPSHOT,
        Topic::Compare => COMPARE,
        Topic::Restore => RESTORE,
        Topic::Script => SCRIPT,
        Topic::Observe => OBSERVE,
        Topic::Import => IMPORT,
        Topic::Status => STATUS,
        Topic::Log => LOG,
        Topic::Lists => LISTS,
        Topic::Documents => DOCUMENTS,
        Topic::Refusals => REFUSALS,
        Topic::Profile => PROFILE,
    }
}
