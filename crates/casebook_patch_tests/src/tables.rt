//! Tables of pairs of trees, with the patch between them.

/// Changes of texts.
pub const TEXTS: &str = r##"
patch: /f = a%(NL) :: /f = b%(NL) =>
| diff --git a/f b/f
| index 78981922613b2afb6025042ff6bd878ac1994e85..61780798228d17af2d34fce4cfbdf35556832472 100644
| --- a/f
| +++ b/f
| @@ -1 +1 @@
| -a
| +b
patch: /f = a%(NL) :: /f = %(EMPTY) =>
| diff --git a/f b/f
| index 78981922613b2afb6025042ff6bd878ac1994e85..e69de29bb2d1d6434b8b29ae775ad8c2e48c5391 100644
| --- a/f
| +++ b/f
| @@ -1 +0,0 @@
| -a
patch: /f = %(EMPTY) :: /f = a =>
| diff --git a/f b/f
| index e69de29bb2d1d6434b8b29ae775ad8c2e48c5391..2e65efe2a145dda7ee51d1741299f848e5bf752e 100644
| --- a/f
| +++ b/f
| @@ -0,0 +1 @@
| +a
| \ No newline at end of file
patch: /f = a%(NL)b :: /f = a%(NL)b%(NL) =>
| diff --git a/f b/f
| index 0a207c060e61f3b88eaee0a8cd0696f46fb155eb..422c2b7ab3b3c668038da977e4e93a5fc623169c 100644
| --- a/f
| +++ b/f
| @@ -1,2 +1,2 @@
|  a
| -b
| \ No newline at end of file
| +b
patch: /f = a%(NL)b%(NL) :: /f = a%(NL)b =>
| diff --git a/f b/f
| index 422c2b7ab3b3c668038da977e4e93a5fc623169c..0a207c060e61f3b88eaee0a8cd0696f46fb155eb 100644
| --- a/f
| +++ b/f
| @@ -1,2 +1,2 @@
|  a
| -b
| +b
| \ No newline at end of file
patch: /f = a%(NL)b :: /f = c%(NL)b =>
| diff --git a/f b/f
| index 0a207c060e61f3b88eaee0a8cd0696f46fb155eb..d2ffb66d541db23bd5f00970474567f48d3d8a90 100644
| --- a/f
| +++ b/f
| @@ -1,2 +1,2 @@
| -a
| +c
|  b
| \ No newline at end of file
patch: /f = 1%(NL)2%(NL)3%(NL)4%(NL)5%(NL)6%(NL)7%(NL)8%(NL)9%(NL)
  :: /f = 1%(NL)2%(NL)3%(NL)4%(NL)6%(NL)7%(NL)8%(NL)9%(NL) =>
| diff --git a/f b/f
| index 07193989308c972f8a2d0f1b3a15c29ea4ac565b..b072e64e743a0cdef5af12532bc91fc200fd7d86 100644
| --- a/f
| +++ b/f
| @@ -2,7 +2,6 @@
|  2
|  3
|  4
| -5
|  6
|  7
|  8
patch: /f = 1%(NL)2%(NL)3%(NL)4%(NL)5%(NL)6%(NL)7%(NL)8%(NL)9%(NL)10%(NL)11%(NL)12%(NL)
  :: /f = 1%(NL)3%(NL)4%(NL)5%(NL)6%(NL)7%(NL)8%(NL)10%(NL)11%(NL)12%(NL) =>
| diff --git a/f b/f
| index 08fe19ca4d2f79624f35333157d610811efc1aed..4cc854e9c7fa84a9b29f082906c4a739ba829823 100644
| --- a/f
| +++ b/f
| @@ -1,12 +1,10 @@
|  1
| -2
|  3
|  4
|  5
|  6
|  7
|  8
| -9
|  10
|  11
|  12
patch: /f = 1%(NL)2%(NL)3%(NL)4%(NL)5%(NL)6%(NL)7%(NL)8%(NL)9%(NL)10%(NL)11%(NL)12%(NL)
  :: /f = 1%(NL)3%(NL)4%(NL)5%(NL)6%(NL)7%(NL)8%(NL)9%(NL)11%(NL)12%(NL) =>
| diff --git a/f b/f
| index 08fe19ca4d2f79624f35333157d610811efc1aed..ec59b5787bedf1cb10985e354331d2976589cb82 100644
| --- a/f
| +++ b/f
| @@ -1,5 +1,4 @@
|  1
| -2
|  3
|  4
|  5
| @@ -7,6 +6,5 @@
|  7
|  8
|  9
| -10
|  11
|  12
patch: /f = 1%(NL)2%(NL)3%(NL)4%(NL)5%(NL) :: /f = 1%(NL)2%(NL)3%(NL)4%(NL)5%(NL)6%(NL) =>
| diff --git a/f b/f
| index 8a1218a1024a212bb3db30becd860315f9f3ac52..b414108e81e5091fe0974a1858b4d0d22b107f70 100644
| --- a/f
| +++ b/f
| @@ -3,3 +3,4 @@
|  3
|  4
|  5
| +6
patch: /f = 1%(NL)2%(NL)3%(NL)4%(NL)5%(NL) :: /f = 0%(NL)1%(NL)2%(NL)3%(NL)4%(NL)5%(NL) =>
| diff --git a/f b/f
| index 8a1218a1024a212bb3db30becd860315f9f3ac52..e8371f00609f33a59378dd2f6bb4385a7df8bd63 100644
| --- a/f
| +++ b/f
| @@ -1,3 +1,4 @@
| +0
|  1
|  2
|  3
patch: /f = -- a%(NL)++ b%(NL) :: /f = -- a%(NL) =>
| diff --git a/f b/f
| index a75bb7ead98df345100d28a704143dfb1afb255f..70a30d2c7c1755e4f3893768725258384210bb8d 100644
| --- a/f
| +++ b/f
| @@ -1,2 +1 @@
|  -- a
| -++ b
"##;

/// Files that are made or removed, and files that aren't text.
pub const FILES: &str = r##"
patch: %(EMPTY) :: /f = a%(NL)b%(NL) =>
| diff --git a/f b/f
| new file mode 100644
| index 0000000000000000000000000000000000000000..422c2b7ab3b3c668038da977e4e93a5fc623169c
| --- /dev/null
| +++ b/f
| @@ -0,0 +1,2 @@
| +a
| +b
patch: /d/f = a%(NL)b%(NL) :: %(EMPTY) =>
| diff --git a/d/f b/d/f
| deleted file mode 100644
| index 422c2b7ab3b3c668038da977e4e93a5fc623169c..0000000000000000000000000000000000000000
| --- a/d/f
| +++ /dev/null
| @@ -1,2 +0,0 @@
| -a
| -b
patch: %(EMPTY) :: /f = %(EMPTY) =>
| diff --git a/f b/f
| new file mode 100644
| index 0000000000000000000000000000000000000000..e69de29bb2d1d6434b8b29ae775ad8c2e48c5391
patch: /f = %(EMPTY) :: %(EMPTY) =>
| diff --git a/f b/f
| deleted file mode 100644
| index e69de29bb2d1d6434b8b29ae775ad8c2e48c5391..0000000000000000000000000000000000000000
patch: /a = x%(NL); /b = x%(NL); /c = x%(NL) :: /a = y%(NL); /c = x%(NL); /d/e = z =>
| diff --git a/a b/a
| index 587be6b4c3f93f93c489c0111bba5596147a26cb..975fbec8256d3e8a3797e7a3611380f27c49f4ac 100644
| --- a/a
| +++ b/a
| @@ -1 +1 @@
| -x
| +y
| diff --git a/b b/b
| deleted file mode 100644
| index 587be6b4c3f93f93c489c0111bba5596147a26cb..0000000000000000000000000000000000000000
| --- a/b
| +++ /dev/null
| @@ -1 +0,0 @@
| -x
| diff --git a/d/e b/d/e
| new file mode 100644
| index 0000000000000000000000000000000000000000..fa7af8bf5fdd704f73beb3adc5612682a98e1af5
| --- /dev/null
| +++ b/d/e
| @@ -0,0 +1 @@
| +z
| \ No newline at end of file
patch: /d = x%(NL) :: /d/f = y%(NL) =>
| diff --git a/d b/d
| deleted file mode 100644
| index 587be6b4c3f93f93c489c0111bba5596147a26cb..0000000000000000000000000000000000000000
| --- a/d
| +++ /dev/null
| @@ -1 +0,0 @@
| -x
| diff --git a/d/f b/d/f
| new file mode 100644
| index 0000000000000000000000000000000000000000..975fbec8256d3e8a3797e7a3611380f27c49f4ac
| --- /dev/null
| +++ b/d/f
| @@ -0,0 +1 @@
| +y
patch: /d/f = y%(NL) :: /d = x%(NL) =>
| diff --git a/d b/d
| new file mode 100644
| index 0000000000000000000000000000000000000000..587be6b4c3f93f93c489c0111bba5596147a26cb
| --- /dev/null
| +++ b/d
| @@ -0,0 +1 @@
| +x
| diff --git a/d/f b/d/f
| deleted file mode 100644
| index 975fbec8256d3e8a3797e7a3611380f27c49f4ac..0000000000000000000000000000000000000000
| --- a/d/f
| +++ /dev/null
| @@ -1 +0,0 @@
| -y
patch: /b = a%(NUL)b :: /b = a%(NUL)c%(NL) =>
| diff --git a/b b/b
| index 20b5be91886d0b6f26dc98a225c0dac05fe2c86e..659b72404b70ab54da8f878f31930baac622ca49 100644
| GIT binary patch
| literal 4
| TcmV(e0Q>)80AmUP009600$2dg
|
| literal 3
| ScmV(d0Q~=90Ac|E0RR61hycU@
|
patch: %(EMPTY) :: /b = %(NUL) =>
| diff --git a/b b/b
| new file mode 100644
| index 0000000000000000000000000000000000000000..f76dd238ade08917e6712764a16a22005a50573d
| GIT binary patch
| literal 1
| QcmV(b0RH~~0RRC1{{R610RR91
|
| literal 0
| KcmV+b0RR6000031
|
patch: /b = 012345678901234567890123456789012345678901234567890123456789%(NUL) :: %(EMPTY) =>
| diff --git a/b b/b
| deleted file mode 100644
| index e283d774c7d45188ff8287bd67a8fd31627fe325..0000000000000000000000000000000000000000
| GIT binary patch
| literal 0
| KcmV+b0RR6000031
|
| literal 61
| zcmV)C0K)$;F)}kWH8wXmIWRFYGc+|eH#j*kF)}kWH8wXmIWRFYGc+|eH#j*kF)}kW
| YH8wXmIWRFYGc+|eH#j)}0RRC1|AF=lPXGV_
|
patch: /b = a%(NL) :: /b = %(NUL)a%(NL) =>
| diff --git a/b b/b
| index 78981922613b2afb6025042ff6bd878ac1994e85..29cd267315316baf2f931f924b0a01c73593ad53 100644
| GIT binary patch
| literal 3
| ScmV(d0Q~;|VG02N0RR60&j4%y
|
| literal 2
| RcmV(c0R8`A3IPBB|Nj8a0BisN
|
"##;

/// Names that are quoted.
pub const NAMES: &str = r##"
patch: /a%(TAB)b = x%(NL); /q"\ = x%(NL); /ä/%(ESC) = x%(NL); /n%(NL)l = x%(NL)
  :: /a%(TAB)b = y%(NL); /q"\ = y%(NL); /ä/%(ESC) = y%(NL); /n%(NL)l = y%(NL) =>
| diff --git "a/a\tb" "b/a\tb"
| index 587be6b4c3f93f93c489c0111bba5596147a26cb..975fbec8256d3e8a3797e7a3611380f27c49f4ac 100644
| --- "a/a\tb"
| +++ "b/a\tb"
| @@ -1 +1 @@
| -x
| +y
| diff --git "a/n\nl" "b/n\nl"
| index 587be6b4c3f93f93c489c0111bba5596147a26cb..975fbec8256d3e8a3797e7a3611380f27c49f4ac 100644
| --- "a/n\nl"
| +++ "b/n\nl"
| @@ -1 +1 @@
| -x
| +y
| diff --git "a/q\"\\" "b/q\"\\"
| index 587be6b4c3f93f93c489c0111bba5596147a26cb..975fbec8256d3e8a3797e7a3611380f27c49f4ac 100644
| --- "a/q\"\\"
| +++ "b/q\"\\"
| @@ -1 +1 @@
| -x
| +y
| diff --git "a/\303\244/\033" "b/\303\244/\033"
| index 587be6b4c3f93f93c489c0111bba5596147a26cb..975fbec8256d3e8a3797e7a3611380f27c49f4ac 100644
| --- "a/\303\244/\033"
| +++ "b/\303\244/\033"
| @@ -1 +1 @@
| -x
| +y
patch: /s p = a%(NL) :: /s p = b%(NL) =>
| diff --git "a/s p" "b/s p"
| index 78981922613b2afb6025042ff6bd878ac1994e85..61780798228d17af2d34fce4cfbdf35556832472 100644
| --- "a/s p"
| +++ "b/s p"
| @@ -1 +1 @@
| -a
| +b
"##;

/// Directories that `git apply` doesn't make or remove.
pub const DIRECTORIES: &str = r##"
unmade: %(EMPTY) :: /e = dir => /e
unmade: /d = dir; /d/f = x :: /d = dir => /d
unmade: /a = dir; /a/b = dir; /a/b/f = x :: /a = dir => /a
unmade: /d = x :: /d = dir => /d
unmade: %(EMPTY) :: /a = dir; /a/b = dir; /a/b/f = x => none
unmade: /e = dir :: /e = dir => none
unmade: %(EMPTY) :: /a = dir; /a/e = dir; /e = dir => /a, /a/e, /e

unremoved: /e = dir :: %(EMPTY) => /e
unremoved: /a = dir; /a/e = dir :: /a = dir; /a/f = x => /a/e
unremoved: /a = dir; /a/b = dir; /a/b/f = x :: %(EMPTY) => none
unremoved: /e = dir :: /e = x => none
unremoved: /e = dir :: /e = dir; /e/f = x => none
unremoved: /a = dir; /a/e = dir :: /a = dir => /a/e
"##;
