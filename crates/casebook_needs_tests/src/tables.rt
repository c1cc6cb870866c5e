//! Tables of lines and of what they depend on.

/// The words of texts, and the paths and variables that they name.
pub const WORDS: &str = r##"
words: %(EMPTY) => %(EMPTY)
words: ls => [ls]
words: cat 'my file' => [cat] [my] [file] [my file]
words: cp "a b" 'c d'/e => [cp] [a] [b] [c] [d] [/e] [a b] [ ] [c d]
words: cp a{b,c} $d > e;f|g&h<i(j)=k:l\m`n"o
  => [cp] [a] [b] [c] [d] [e] [f] [g] [h] [i] [j] [k] [l] [m] [n] [o]
words: a%(TAB)b%(NL)c => [a] [b] [c]
words: */?[x]!#%@+-.~^ => [*/?[x]!#%@+-.~^]
words: hex 6361742066ff => [cat] hex 66ff
words: hex 2766ff206727 => hex 66ff [g] hex 66ff2067

paths: /srv :: unset :: %(EMPTY) => %(EMPTY)
paths: /srv :: unset :: cat prices => /srv/cat, /srv/prices
paths: /srv :: unset :: cat 'my file' => /srv/cat, /srv/my, /srv/file, /srv/my file
paths: /srv :: unset :: cat ../etc//passwd ./x / .
  => /srv/cat, /etc/passwd, /srv/x, /, /srv
paths: /srv :: unset :: cp /srv/*.txt *.c d/?/x /*x [a]/b
  => /srv/cp, /srv/*.txt, /srv, /srv/*.c, /srv, /srv/d/?/x, /srv/d, /*x, /, /srv/[a]/b, /srv
paths: /srv :: /home/a :: ls ~ ~/x ~b ~/*.c
  => /srv/ls, /srv/~, /home/a, /srv/~/x, /home/a/x, /srv/~b, /srv/~/*.c, /srv/~, /home/a/*.c,
  /home/a
paths: /srv :: unset :: ~/x => /srv/~/x
paths: /srv :: %(EMPTY) :: ~/x => /srv/~/x, /x
paths: /srv :: h :: ~ => /srv/~, /srv/h
paths: / :: unset :: hex 6120ff => /a
paths: / :: unset :: hex ff2fff2a => %(EMPTY)
paths: / :: unset :: hex 612f2aff => /a
paths: / :: unset :: a%(NUL)b c => /c
paths: / :: unset :: %(n*255) => /%(n*255)
paths: / :: unset :: %(n*256) => %(EMPTY)
paths: / :: unset :: %(n*256)/x y => /y

variables: echo $x ${y} ${#z} ${!w} $1 $$ $? $_a1 => x y z w _a1
variables: $x$y'$z'"$x" => x y z x
variables: $IFS $PWD $HOME $OLDPWD $CDPATH => HOME
variables: $x-y${z:-$w}$#v$!u => x z w
variables: a$ b => %(EMPTY)
variables: x$xé => x
variables: hex 2478ff => x
"##;

/// The queries of each rule.
pub const RULES: &str = r##"
given: sed -i s/a/b/ prices :: /srv/, /srv/prices=a, @/srv :: read /srv/prices, other /srv/prices
- from: read => bytes /srv/prices
- from: written => nothing
- from: named => bytes /srv/sed, bytes /srv/-i, bytes /srv/s/a/b
- from: directory => cwd
- from: shell => nothing

given: printf x >> f :: /srv/, /srv/f=1, @/srv :: append /srv/f
- from: written => nothing
- from: named => bytes /srv/printf, bytes /srv/x, bytes /srv/f

from: printf x > g :: /srv/, /srv/f=1, @/srv :: other /srv/f :: written => bytes /srv/f
from: true :: /d/, /f=1 :: other /f, append /g, other /h, other /d :: written => bytes /f
from: true :: /f=1 :: append /f, other /f :: written => bytes /f

from: wc -c < f :: /srv/, /srv/f=1, @/srv :: nothing :: named
  => bytes /srv/wc, bytes /srv/-c, bytes /srv/f

given: while read a; do echo $a; done < t :: /srv/, @/srv :: nothing
- from: named => bytes /srv/while, bytes /srv/read, bytes /srv/a, bytes /srv/do, bytes /srv/echo,
  bytes /srv/done, bytes /srv/t
- from: variable => var a

given: cp -r d e :: /d/, /d/x=1, /d/y=2 :: read /d/x, list /d, other /e, other /e/x
- from: read => bytes /d/x
- from: listed => names /d
- from: written => nothing
- from: named => bytes /cp, bytes /-r, bytes /d, bytes /e

given: cp -r d e :: /d/, /d/x=1, /e/, /e/d/ :: read /d/x, list /d, other /e/d/x
- from: named => bytes /cp, bytes /-r, bytes /d, bytes /e, names /e, bytes /e/d/x

given: cp /srv/* /tmp/ :: /srv/, /srv/a=1, /srv/b=2, /tmp/, /tmp/b=3 ::
  read /srv/a, read /srv/b, list /srv, other /tmp/a, other /tmp/b
- from: written => bytes /tmp/b
- from: named => bytes /cp, bytes /srv/*, bytes /srv, bytes /tmp, names /tmp,
  bytes /tmp/a

from: ls /d :: /d/, /dd/ :: other /dd/x, other /d/x, append /d/y/z :: named
  => bytes /ls, bytes /d, names /d, bytes /d/x, bytes /d/y/z
from: ls / :: /d/, /d/f=1 :: read /d/f, append /d/g, list /d :: named
  => bytes /ls, bytes /, names /, bytes /d, bytes /d/g
from: cat 'my file' :: /my file/, /my/ :: append /my file/x, append /my/y, append /z :: named
  => bytes /cat, bytes /my, bytes /file, bytes /my file, names /my, names /my file,
  bytes /my file/x, bytes /my/y

given: sh /home/a/job ::
  /home/, /home/a/, /home/a/job=test -e /tmp/lock || echo a/b > out, /srv/, @/srv ::
  read /home/a/job, other /srv/out
- from: in /home/a/job => bytes /tmp/lock, bytes /srv/a/b
- from: read => bytes /home/a/job
- from: named => bytes /srv/sh

from: true :: /s=/x %(n*65533) :: read /s :: in /s => bytes /x
from: true :: /s=/x %(n*65534) :: read /s :: in /s => nothing
from: true :: /s=/x%(NUL) :: read /s :: in /s => nothing
from: true :: /s/ :: read /s :: in /s => nothing
from: true :: none :: read /s :: in /s => nothing
from: true :: /s=/x ~/y%(NL)/z/* :: append /s, list /s :: in /s => nothing
from: true :: /s=/x ~/y%(NL)/z/*, HOME=/h :: read /s :: in /s
  => bytes /x, bytes /~/y, bytes /z/*
from: true :: /s=/x /y, /t=/y /z :: read /s, read /t :: in /t => bytes /z
from: ls /x :: /s=/x :: read /s :: in /s => nothing

from: echo "$x" >> f :: none :: nothing :: variable => var x
from: echo $? :: none :: nothing :: variable => status
from: echo ${?} $x $? $x :: none :: nothing :: variable => var x, status
from: echo $$ ? :: none :: nothing :: variable => nothing
from: echo ~/x :: none :: nothing :: variable => var HOME
from: echo $HOME ~ $x :: none :: nothing :: variable => var HOME, var x
from: echo a~ ~b :: none :: nothing :: variable => nothing

from: true :: none :: shell /.casebook/shell/7 :: shell => bytes /.casebook/shell/7
from: true :: none :: read /f, read /g, read /f :: read => bytes /f, bytes /g
from: true :: none :: read /f, list /f :: listed => names /f
"##;

/// Needs with their sources and answers.
pub const NEEDS: &str = r##"
needs: sed -i s/a/b/ prices :: /srv/, /srv/prices=a, @/srv ::
  read /srv/prices, other /srv/prices, shell /.casebook/shell/7
  => read: bytes /srv/prices [a]; named: bytes /srv/sed nothing; named: bytes /srv/-i nothing;
  named: bytes /srv/s/a/b nothing;
  directory: cwd /srv; shell: bytes /.casebook/shell/7 nothing
needs: ls d $? $x $y ~ :: /d/, /d/b=1, /d/a=2, ?3, x=v w, HOME=/d :: list /d, list /e
  => listed: names /d (a b); listed: names /e no directory; named: bytes /ls nothing;
  named: bytes /d directory; named: bytes /? nothing; named: bytes / directory;
  named: bytes /x nothing; named: bytes /y nothing; named: bytes /~ nothing;
  named: names / (d); named: bytes /e nothing;
  variable: var x [v w]; variable: var y unset; variable: var HOME [/d]; variable: status 3;
  directory: cwd /
needs: hex 63617420ff :: none :: nothing => named: bytes /cat nothing; directory: cwd /
needs: %(EMPTY) :: @/srv :: nothing => directory: cwd /srv
"##;
