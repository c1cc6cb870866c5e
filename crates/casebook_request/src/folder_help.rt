//! What the program says of its commands about folders.

/// Help on the command `snapshot`.
pub(crate) const SNAPSHOT: &str = "\
casebook snapshot FOLDER [--mounts] [--at PATH] [--skip PATH]..
casebook snapshot --tar FILE        [--at PATH] [--skip PATH]..

Writes what is in a folder, or in a stream that tar wrote, as a document: directories,
and files of at most 1,048,576 bytes, with modes and owners. casebook script makes a
script of it. Nothing is changed, no link is followed, and no device and no pipe is
opened.

    --mounts       also looks at other file systems that are mounted in the folder.
                   Skip /proc and /sys then.
    --tar FILE     reads FILE, or standard input if it is -, as in
                   ssh host tar -cf - -C /srv . | casebook snapshot --tar - --at /srv
                   The stream can't be packed; gzip -dc unpacks one.
    --at PATH      puts the folder or the stream at PATH; at / if it isn't given
    --skip PATH    leaves out PATH, and what is below it. It can be given several
                   times. PATH is a path in the document.

What isn't in the tree is listed in the document with its reason:

    link, device, pipe, socket, null device
    other file system    it is the root of another file system
    too large            it has more than 1,048,576 bytes
    name too long        it has more than 255 bytes
    odd name             it isn't UTF-8
    unreadable           the system refuses to read it; in a stream a sparse file
    changing             it changed each of the three times that it was read
    asked                it is a PATH of --skip

Standard error has one line that counts the paths of the tree and, by their
reasons, what was skipped. What other users do in the folder meanwhile can't lead
out of it, but a file in the document may be one of a moment, and its neighbour one
of another.
";

/// Help on the command `script`.
pub(crate) const SCRIPT: &str = "\
casebook script DOCUMENT --sessions FILE --lines FILE

Writes a script for retro record: the tree of DOCUMENT, which casebook snapshot wrote,
with the sessions and the lines of two tables. One of the three may be -, which is
standard input.

A table has one row a line, and a tab between cells, here written as TAB. Rows that
are empty or begin with # are skipped. In a cell \\t, \\n, \\r and \\\\ are a tab, a
newline, a carriage return and a backslash; any other backslash is refused.

    --sessions FILE   a row is the number of a session, its directory, and a cell
                      for each variable that it begins with:
                      1TAB/home/aliceTABHOME=/home/alice
    --lines FILE      a row is the number of a session, and what was typed in it, in
                      the order in which all was typed:
                      1TABcat orders >> /srv/shop/orders

The lines of the script have numbers from 1 on, in the order of their rows.

    casebook snapshot /mnt/backup/srv --at /srv > monday.json
    casebook script monday.json --sessions sessions.tsv --lines lines.tsv > script.json
    retro record < script.json > log.json

Exit status: 0 done, 1 a file is refused, and standard error says where.
";

/// Help on the command `compare`.
pub(crate) const COMPARE: &str = "\
casebook compare LOG FOLDER [--mounts] [--at PATH] [--skip PATH]..
casebook compare LOG --tar FILE        [--at PATH] [--skip PATH]..
casebook compare LOG --snapshot DOCUMENT

Says whether a log or a case explains what a folder holds: whether the directories and
files that the log has at its end are those of the folder. Nothing is changed.

    --mounts, --tar FILE    as in casebook help snapshot
    --snapshot DOCUMENT     what casebook snapshot wrote, in place of a folder
    --at PATH      the folder is the log's directory PATH; / if it isn't given
    --skip PATH    leaves out PATH, and what is below it. It can be given several
                   times. PATH is a path of the log.

Standard output counts the paths of the folder that are as recorded, and those that
aren't. Each that isn't has a line: what is recorded / what is in the folder, of two
texts the first line that differs, and the last three lines of the log that wrote
to it. All of these are listed by

    casebook lines LOG --writes PATH

A path isn't compared if it isn't PATH or below it, nor if casebook snapshot would
skip it, as it does links, devices and large files. If the log has a directory or a
file there, it has a line with the reason; what a case has for a link, a device or a
large file counts as recorded, whatever it is now. Standard error counts all that was
skipped. Modes and owners aren't compared: they are in no log. Only the end is: what
lines overwrote before it doesn't show.

Exit status: 0 each path is as recorded, 4 one isn't, or was skipped though the log
has a directory or a file there.
";

/// Help on the command `restore`.
pub(crate) const RESTORE: &str = "\
casebook restore LOG --cancel LIST [--replace LIST] --root FOLDER [--at PATH]
                 [--only PATH].. [--apply --undo FILE]
casebook restore --undo FILE --root FOLDER [--apply]

Brings a folder from what a log has at its end to what its repair has there: the
files and directories in which the two differ, and nothing else. Without --apply
nothing is changed: standard output is the plan.

    --root FOLDER   the folder, such as a mounted copy of the machine's files
    --at PATH       the folder is the log's directory PATH; / if it isn't given
    --only PATH     restores PATH, what is below it, and the directories that it
                    needs above it. It can be given several times.
    --apply         carries the plan out
    --undo FILE     a new file, which gets what the folder holds before that. Without
                    a LOG, what a run with this FILE did is taken back.

LIST and --replace are as in casebook help lists and casebook help show.

Each path of the plan has a line:

    ready     the folder holds what the log has at its end: this will be changed
    done      it holds what the repair has: there is nothing to do
    differs   it holds neither
    blocked   a link, a device, a mount or something else is in the way, or was there
              and isn't kept

If one differs or is blocked, nothing is changed at all. A file that is changed keeps
its mode and owner. What comes back gets those that a CASE last saw there, but for what
the lines did that are left out. A LOG has none: then a file gets the mode 0600, a
directory 0700, and both the user who runs this. Times, ACLs and other names are lost.

No link is followed, and nothing outside of FOLDER is changed. Each file is written
beside its path and renamed over it, so each path holds its old or its new file at any
moment, or nothing while it becomes a directory or stops to be one. After an
interruption run the same command with the same FILE again, or take it back by it.
Somebody who changes a file just before it is renamed over loses that change: restore
a copy, or with nobody else at work.

Exit status: 0 each path is ready or done, 4 one isn't.
";
