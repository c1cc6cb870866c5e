//! What the program says of lists of lines, of documents, of refusals and of the shell.

/// Help on lists of lines.
pub(crate) const LISTS: &str = "\
Lists of lines

A list names lines of a log. It has items with commas between them, and no spaces.
They are read from the left, and each adds lines to the set or takes lines away:

    90         adds line 90
    90-98      adds the lines from 90 to 98
    5:all      adds all lines of session 5
    -41        takes line 41 away
    -41-44     takes the lines from 41 to 44 away

So 5:all,-41,-44 is session 5 without lines 41 and 44. An item that means no line
of the log is refused.

@FILE is the list in a file. There each line of text has items, with spaces around
them if you like, and what comes after # is a remark:

    # the guest account, day 1
    90-98
    106,108     # prices
    128

The lines that `casebook lines .. --format numbers` prints are such a list.
";

/// Help on the documents that the program reads.
pub(crate) const DOCUMENTS: &str = "\
Documents

LOG is a log as `retro record` and `retro relog` write it: JSON with the files and
sessions at the start, and the lines with what they read, changed and printed.
`retro record` makes it of a script: the files, sessions and lines alone.

CASE is a case as `casebook import` writes it: JSON with what the recorder saw of a
machine. Each command takes one where it takes a LOG.

The FILE of --about says who typed in which session, and when. It is JSON like this,
of which both lists may be missing:

    {\"about\":1,
     \"sessions\":[[1,\"alice\"],[5,\"guest\"]],
     \"lines\":[[106,1746528720],[107,1746528755]]}

A session has a number and a name, and a line a number and a time: seconds since the
start of 1970 (UTC), as `date +%s` prints them. Times are shown in UTC. More cells in
a row, and more keys, don't count. A case has names and times of its own; those of
FILE come in their place.

The FILE of --cancel @FILE has a list: see casebook help lists.
";

/// Help on why documents are refused.
pub(crate) const REFUSALS: &str = "\
Why documents are refused

`retro` says `refused N` where casebook says it in words. The numbers are these:

     8  the numbers of lines don't rise, or are below the log's first
     9  a line has a session that isn't listed
    10  the files aren't possible, such as a file in a directory that isn't there, or
        a noted change isn't possible where it is noted
    11  a name is over 255 bytes, a file over 1,048,576, or a value over 65,536
    12  no JSON text in UTF-8
    13  a value has a wrong form, or a key is missing
    14  a key isn't one of such a document
    15  a text isn't pairs of hexadecimal digits
    16  a version that isn't known
    21  a line is to be cancelled or replaced that isn't in the log
    22  --cuts has no number, or a 0
    23  --workers is over 16
    25  a line is to be cancelled or replaced from before the log begins
    26  a line is to be cancelled or replaced twice
    31  the words of the command line

`casebook check DOCUMENT` says which of them holds of a log or a script. Why a case is
refused is always said in words.
";

/// Help on what the lines of a log may be.
pub(crate) const PROFILE: &str = "\
What a line may be

The lines of a log were played by retro's own shell, which knows a part of what a
real one knows. A line is understood if it means there what it means in bash: each
of its commands is one that the shell has, in a form that it has, and nothing in it
depends on what only a real shell knows. What other lines did isn't in an answer:

    casebook lines log.json --unknown

    commands that Retro doesn't know
                       all but echo, true, false, :, pwd, cd, id, test, [, cat, tee,
                       cut, grep, mkdir, rm, cp and mv: such as ls, vi and git, and
                       scripts
    options or forms that it doesn't have
                       grep without -F, cp -r, cd -, options after operands, echo -e;
                       here-documents, $(..), &, 2>, while and functions; variables
                       such as PATH that are set
    patterns or values that a shell expands
                       *, ?, [..] and {a,b} outside quotes; $x outside quotes, but for
                       the variable of a `for` over plain words; \"$x\" if the log
                       doesn't set x; ~+, and a ~ after = or :
    commands that read the terminal
                       cat, cut or grep without a file, and tee

Of a line that is understood the text is right, and the machine may still have done
something else: it refuses what isn't permitted, and retro's shell knows no
permissions; a command may be an alias or a function; a file may be a link or a
device; a disk may be full. So compare what the log says with the real files before
you restore anything.
";
