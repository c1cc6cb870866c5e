//! What the program says of its recorder.

/// Help on the command `observe`.
pub(crate) const OBSERVE: &str = "\
casebook observe --start SPOOL FOLDER..
casebook observe SPOOL < RECORD

Keeps what the lines of people's shells do in some folders. recorder/hook.sh, which
their bash reads when it starts, sends a RECORD to the second command when a line
begins and when it ends, and waits for it. Nothing stays running between two lines.

    --start    makes SPOOL, a new directory that only its owner can look into, and
               writes to it what the folders hold now. A FOLDER is a path from the
               root. SPOOL isn't in one of them.

With a RECORD, the folders are looked at again. What differs since the last look, the
bytes of new and changed files of at most 1,048,576 bytes, and the record are appended
to SPOOL and synced. What others do meanwhile waits: records are taken one at a time.
A record that can't be taken within a second, since somebody else has SPOOL, isn't. No
link is followed, only directories and files are opened, and other file systems that
are mounted in a folder aren't entered.

Who may read the folders may read SPOOL's contents of them, and nobody else should:
run this as root. Which files a line read shows by their times of reading: mount the
folders with strictatime, or only what lines write is known. `show` and `page` name a
folder that was mounted otherwise, if only for one record.

    mount -o remount,strictatime /srv
    casebook observe --start /var/lib/retro/spool /srv /home

SPOOL's files are text, but for the contents; docs/FORMATS.md says how to read them.
`casebook import SPOOL` writes them as one document.

Exit status: 0 done, 1 what was sent isn't a record, or SPOOL is damaged or there
already, 3 a folder or SPOOL can't be read or written, or somebody else has it.
";

/// Help on the command `import`.
pub(crate) const IMPORT: &str = "\
casebook import SPOOL > CASE

Writes what `casebook observe` kept in SPOOL as one document, a case: JSON with the
first look at the folders, the observations since, and the bytes of files that both
name. All of it is as it is in SPOOL, and nothing is worked out of it; docs/FORMATS.md
describes it.

SPOOL isn't changed, and its folders needn't be there. The observations are those of
one moment. Records that are sent while they are read wait, those that are sent
later aren't in the case, and nobody waits while the bytes of files are read.

A CASE has what was typed and what the files held. So nobody should read it who may
not read SPOOL:

    (umask 077; casebook import /var/lib/retro/spool > case.json)

Bytes are in a case once, however often they are named. If some are missing that are
named, or were altered, nothing is written, and standard error has the first row that
names them.

Every other command takes a CASE in place of a LOG:

    casebook lines case.json
    casebook show case.json --cancel 3:all
    casebook restore case.json --cancel 3:all --root /mnt/copy

A line of a case has the text that was typed, its time and the login name of its
user. Lines are numbered in the order in which they ended. A line that retro's shell
knows, and that did just what it does there, is run again where that is needed. Any
other one stands as it was observed: `lines` marks it with o. It does so as long as
nothing that it read, listed or names would be another. Otherwise `show` says that it
has to be run for real, and until then it stands as it was observed.

What somebody did while no line was open is a line of session 0. The other sessions
are numbered from 1 on, in the order in which they began. A link, a file that is too
large or one that couldn't be read is a file with a text that says what it is.

Exit status: 0 done, 1 SPOOL is damaged, or bytes are missing, 3 there is no SPOOL, it
can't be read, or somebody else has it.
";

/// Help on the command `status`.
pub(crate) const STATUS: &str = "\
casebook status SPOOL [--who FILE]

Says in ten rows whether the recorder works:

      recorded  2026-11-28T20:51:09Z to 2026-11-30T08:01:13Z
      folders   /home, /srv, /tmp
      sessions  9: ann 3, bob 5, mallory 1
      lines     412: 203 as typed, 209 as observed
      overlaps  4: lines that aren't told apart
      outside   3: changes that no recorded line made
    ? missing   lines without a record: 2 of session 3
    ? reads     not seen in /home, /tmp: mount them with strictatime
    ? logins    not recorded: carol pts/3
      case      3201334 bytes

A row with a question mark says that something isn't known that an answer may need:

    missing   the hook counts the lines of a session. One of which no record was taken,
              since SPOOL was busy or its disk full, is missing, and what it changed
              counts as what another line did.
    reads     which files a line only reads shows by their times of reading, which a
              folder has only if it is mounted with strictatime. Elsewhere a line needs
              what its words name, and what it reads besides isn't known.
    logins    somebody is logged in and has no session in SPOOL: his shell isn't bash,
              or doesn't read the hook. Or FILE names nobody, so nothing is known of
              logins. The row is there with --who alone.

    --who FILE    FILE is what `who` prints, or - for standard input

The last row is how long the document would be that `casebook import` writes. As long
as that takes, `status` takes. SPOOL isn't changed.

    who | casebook status /var/lib/retro/spool --who -

Exit status: 0 nothing is missing, 1 SPOOL is damaged, or bytes are missing, 3 there is
no SPOOL, it can't be read, or somebody else has it, 4 a row has a question mark.
";

/// Help on the command `log`.
pub(crate) const LOG: &str = "\
casebook log CASE > LOG

Writes a log that explains a case: its lines lead from each state that was observed to
the next one. It is for retro; casebook's other commands read the case itself.

A line has the text that was typed if retro's shell knows what it means, and does just
what was seen. Any other one stands as one or several lines that do what was seen:

    cp /.casebook/62/1 /srv/prices; cd /srv

Here 62 is the number of the line in the case, and /.casebook has what it wrote. Such
a line does the same whatever happened before it. `retro repair` takes that for all
that it did, although it may have read what would be another: what it read isn't in
the log. The texts are numbered from 1 on, so a line after one with several texts has
another number than in the case.

    casebook log case.json > log.json
    retro check < log.json

Exit status: 0 done, 1 CASE is no case, or what it says can't be: then standard error
has the first line or row that is wrong; 3 CASE can't be read.
";
