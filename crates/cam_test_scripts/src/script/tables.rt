//! Scripts in rows, each after its first fault.

/// Two nodes, a register and a queue, on three lines.
pub const OBJECTS: &str = "nodes 2\nobject x 1 register 0\nobject q 2 queue\n";

/// The same and a body, on seven lines.
pub const DECLARED: &str =
    "nodes 2\nobject x 1 register 0\nobject q 2 queue\nbody b\ncall 1 x read\ncommit 0\nend\n";

/// The same, two variables, and a variable of `start`, on ten lines.
pub const STARTED: &str = "nodes 2
object x 1 register 0
object q 2 queue
body b
call 1 x read
commit 0
end
begin A 1
ask A B 2
start S 1 b
";

/// Whole scripts after their first fault: line, column and cause, 0 0 0 where there is none. `/` ends a line.
///
/// A byte that is not allowed stands before the words of its line, and its column is its place. A CR is a byte of its word, unless it
/// stands alone just before an LF. The line after the last is one more than there are.
pub const WHOLE: &str = "3 1 3|nodes 1//foo/
1 7 6|nodes 9
1 9 5|nodes 2 3
2 9 11|nodes 1/begin A 2
2 6 9|nodes 1/call A x read
2 8 4|nodes 1/begin A
1 1 10|
1 9 2|nodes 9 \0/
1 5 2|foo \u{1f}/
2 3 2|nodes 1/# \x7f/
0 0 0|nodes 1/# ~/
2 1 2|nodes 1/\u{e9}/
1 7 6|nodes 1\r
1 7 6|nodes 1\r\r/
1 7 6|nodes 1\r 1/
1 1 3|Nodes 1/
3 1 10|# no nodes//
2 1 10|# no nodes
1 1 10|begin A 9/
2 1 10|nodes 1/nodes 1/
4 1 10|nodes 1/body b/abort/
4 1 10|nodes 1/body b/abort
1 6 4|nodes/
1 7 6|nodes 0/
1 9 5|nodes 1 # c/
2 21 6|nodes 1/object x 1 register 9223372036854775808/
2 21 6|nodes 1/object x 1 register -9223372036854775809/
2 21 6|nodes 1/object x 1 register -/
2 21 6|nodes 1/object x 1 register +1/
2 12 3|nodes 1/object x 1 stack/
2 18 5|nodes 1/object x 1 queue 0/
2 8 7|nodes 1/object 1x 1 queue/
3 8 8|nodes 1/object x 1 queue/object x 1 queue/
3 1 10|nodes 1/body b/end/
1 5 2|foo \u{1}/
2 2 2|nodes 1/ \u{e9}/
1 1 3|foo/
3 2 3|nodes 1/body b/ Drain/
3 1 10|/ # c/
3 1 10|//drain/
3 1 10|nodes 1/drain/nodes 1/
3 1 10|nodes 1/drain/object q 1 queue/
3 1 10|nodes 1/body b/body c/
4 1 10|nodes 1/body b/commit 0/abort/
3 1 10|nodes 1/body b/drain/
2 1 10|nodes 1/child 1 1 b/
4 1 10|nodes 1/body b/commit 0/
4 1 10|nodes 1/body b/commit 0
3 4 10|nodes 1/begin A 1/go A/
4 4 10|nodes 1/begin A 1/ask A B 1/go B/
2 8 4|nodes 1/begin A  /
1 9 5|nodes 2 3/
4 5 5|nodes 1/body b/abort/end b/
2 18 5|nodes 1/object q 1 queue 0/
1 7 6|nodes 9/
2 9 6|nodes 1/begin A 9/
2 9 6|nodes 1/deliver x/
2 9 6|nodes 1/deliver 4294967296/
2 8 6|nodes 1/stop 1 1001/
0 0 0|nodes 1/stop 1 1000/
2 7 7|nodes 1/begin abcdefghijklmnopq 1/
2 6 7|nodes 1/body a_b/
5 6 8|nodes 1/body b/abort/end/body b/
3 7 8|nodes 1/begin A 1/ask A A 1/
2 6 9|nodes 1/call A x read/
3 8 9|nodes 1/begin A 1/call A x read/
3 11 9|nodes 1/body b/child 1 1 b/
2 9 11|nodes 1/begin A 2/
2 8 11|nodes 2/tell 1 3/
2 10 11|nodes 7/object x 8 queue/
2 19 4|nodes 1/object c 1 counter/
2 20 6|nodes 1/object c 1 counter x/
2 22 5|nodes 1/object c 1 counter 0 0/
4 10 3|nodes 1/object c 1 counter 0/begin A 1/call A c size/
4 10 3|nodes 1/object c 1 counter 0/begin A 1/call A c write 5/
4 14 6|nodes 1/object c 1 counter 0/begin A 1/call A c add $1/
4 10 3|nodes 1/object r 1 register 0/begin A 1/call A r add 5/
0 0 0|nodes 1/object c 1 counter 0/begin A 1/call A c add -1/call A c read/
0 0 0|nodes 1/object c 1 counter 0/body b/call 1 c read/call 1 c add $1/commit 0/end/
0 0 0|nodes 1/object r 1 register 0/begin A 1/call A r swap 9223372036854775807/call A r write -9223372036854775808/
0 0 0|nodes 1/drain
0 0 0|nodes 4/object x 2 register 1/object y 3 register 1/begin P 1/ask P C 4/drain/call C x read/drain/giveup P C/begin D 1/call D x write 2/drain/call D y write 2/drain/commit D 0/drain/call C y read/drain/";

/// The same of what follows on the lines of `OBJECTS`.
pub const BEHIND_OBJECTS: &str = "0 0 0|body x/abort/end/start x 1 x/begin y 1/call y x read/
5 8 9|body b/commit $0/
5 8 9|body b/commit $99999999999999999999/
5 16 9|body b/call 1 x write $1/
5 15 4|begin A 1/call A x write/
5 6 6|body b/call 10 x read/
5 8 6|body b/commit $1+9223372036854775808/
6 8 6|body b/call 1 x read/commit $1--1/
5 16 6|begin A 1/call A x write $1/
5 10 3|begin A 1/call A q read/
5 10 3|body b/call 1 x inc 1/
37 1 12|body c/;32*call 1 x read/;commit 0/
37 1 10|body c/;31*call 1 x read/;commit 0/abort/
37 1 12|body c/;28*call 9 x read/;call 3 x read/commit 0/end/start S 1 c/start 1 9 c/
37 10 4|body c/;28*call 9 x read/;call 3 x read/commit 0/end/start S 1 c/start T 1/
24 1 12|body b/;5*call 9 x read/;call 4 x read/commit 0/end/body c/child 9 1 b/;5*call 9 x read/;call 6 x read/commit $1/end/start S 1 c/drain/
23 1 12|body b/;5*call 9 x read/;call 4 x read/commit 0/end/body c/child 9 1 b/;5*call 9 x read/;call 7 x read/commit $1/end/start S 1 c/";

/// The same of what follows on the lines of `DECLARED`.
///
/// A body is there, and its name taken, once its `end` was read. `$K` with no earlier statement K is spelled rightly; a wrong spelling or U
/// comes before that. A node above 8 is a wrong number, and up to 8 one that is not there.
pub const BEHIND_DECLARED: &str = "9 1 10|body c/object y 1 queue/
9 1 10|body c/body d/
9 1 10|body c/drain/
10 1 10|body c/abort/commit 0/
8 1 10|child 1 1 b/
8 1 10|end/
9 10 3|body c/call 1 q read/
9 10 3|body c/call 1 x take/
9 6 6|body c/call 0 x read/
9 6 6|body c/call 10 x read/
9 7 6|body c/child 10 1 b/
9 10 4|body c/child 1 1/
9 8 9|body c/call 1 z read/
9 7 5|body c/abort 1/
10 5 5|body c/abort/end c/
9 11 9|body c/child 1 1 c/
8 6 8|body b/
8 6 7|body a_b/
9 8 9|body c/commit $0/
9 8 9|body c/commit $00/
9 8 9|body c/commit $99999999999999999999/
9 8 9|body c/commit $1/
10 16 9|body c/call 1 x read/call 1 x write $2/
9 8 6|body c/commit $1+9223372036854775808/
9 8 6|body c/commit $/
9 8 6|body c/commit $1+/
9 8 6|body c/commit $1--1/
9 8 6|body c/commit $x/
9 7 4|body c/commit/
8 9 6|begin A 9/
8 9 6|begin A 0/
8 9 11|begin A 8/
8 9 11|begin A 3/
8 7 7|begin abcdefghijklmnopq 1/
8 24 6|begin abcdefghijklmnop 9/
8 11 9|start S 1 z/
8 9 11|start S 3 z/
9 6 10|start S 1 b/call S x read/
10 10 10|begin A 1/start S 1 b/giveup A S/";

/// The same of what follows on the lines of `STARTED`.
pub const BEHIND_STARTED: &str = "11 1 10|object y 1 queue/
11 1 10|body c/
11 7 8|begin A 1/
11 7 8|ask A A 1/
11 11 5|ask A C 1 1/
11 4 10|go A/
11 4 10|go B/
11 4 9|go T/
11 6 10|call S x read/
11 8 10|commit S 0/
11 7 10|abort S/
11 5 10|ask S C 1/
11 8 10|giveup S B/
11 10 10|giveup A S/
11 10 9|giveup A T/
11 16 6|call A x write $1/
11 15 4|call A x write/
11 10 3|call A q write 1/
11 9 4|commit A  /
11 9 6|deliver 0/
11 9 6|deliver 4294967296/
11 7 6|cut 1 4294967296/
11 6 6|lose 00/
11 8 11|tell 1 3/
11 7 5|drain 1/";

/// Whole scripts at the limits. `;` stands between pieces, and `64*` says how often a
/// piece stands; there `@` is its number among its like from 1, `^` one less.
///
/// The last `commit` or `abort` is one of the 32 statements, and after it a statement stands where it may not. A body of cost 50 is asked
/// for nine times by one of cost 511, so its start is 512 steps. What the fourth word names counts before the faults of the words between.
pub const LIMITS: &str = "0 0 0|nodes 1/;64*object x@ 1 queue/
66 1 12|nodes 1/;65*object x@ 1 queue/
0 0 0|nodes 1/;32*body b@/abort/end/
98 1 12|nodes 1/;33*body b@/abort/end/
0 0 0|nodes 1/object x 1 queue/body b/;31*call 1 x take/;abort/end/
36 1 12|nodes 1/object x 1 queue/body b/;33*call 1 x take/
36 1 12|nodes 1/object x 1 queue/body b/;32*call 1 x take/;abort/
36 1 10|nodes 1/object x 1 queue/body b/;31*call 1 x take/;2*abort/
0 0 0|nodes 1/;512*drain/
514 1 12|nodes 1/;513*drain/
0 0 0|nodes 1/object x 1 queue/body b/;5*call 9 x take/;call 4 x take/abort/end/body c/child 9 1 b/;5*call 9 x take/;call 6 x take/abort/end/start A 1 c/
23 1 12|nodes 1/object x 1 queue/body b/;5*call 9 x take/;call 4 x take/abort/end/body c/child 9 1 b/;5*call 9 x take/;call 6 x take/abort/end/start A 1 c/drain/
22 1 12|nodes 1/object x 1 queue/body b/;5*call 9 x take/;call 4 x take/abort/end/body c/child 9 1 b/;5*call 9 x take/;call 7 x take/abort/end/start A 1 c/
22 1 12|nodes 1/object x 1 queue/body b/;5*call 9 x take/;call 4 x take/abort/end/body c/child 9 1 b/;5*call 9 x take/;call 7 x take/abort/end/start 1A 9 c c/
0 0 0|nodes 1/body b0/abort/end/;7*body b@/child 9 1 b^/abort/end/
34 1 12|nodes 1/body b0/abort/end/;8*body b@/child 9 1 b^/abort/end/
34 1 12|nodes 1/body b0/abort/end/;7*body b@/child 9 1 b^/abort/end/;body c/child 0 x b7/
514 1 12|nodes 1/;512*drain/;begin 1/
66 1 12|nodes 1/;64*object o@ 1 queue/;object 1 9/
98 1 12|nodes 1/;32*body b@/abort/end/;body b1/
34 2 12|nodes 1/body b0/abort/end/;7*body b@/child 1 1 b^/abort/end/;body c/ child 0 x b7/
34 7 6|nodes 1/body b0/abort/end/;7*body b@/child 1 1 b^/abort/end/;body c/child 0 x c/
0 0 0|nodes 1/;262136*/
1 1 1|nodes 9/;262137*/";

/// A second body and steps after `DECLARED`: each statement and each step once.
pub const FORMS: &str = "# a second body\r

 \t
body c
call 9 q take
call 1 x swap $1-0
child 2 1 b
call 1 q put $03+9223372036854775807
call 1 x write -9223372036854775808
commit $4-9223372036854775807
end
begin A 1
start S 2 b
ask A B 2
call A x write -7
call B q put 08
call B q size
commit A 4
abort B
giveup A B
go S
deliver 0004294967295
cut 1 0
lose 007\r
\trestart  1 \t
drain
play
tell 1 2
query 2 S
stop 2 01000";

/// What the statements of both bodies and the steps, with the numbers of their lines, say.
pub const SAID: &str = "Call { tries: 1, object: 0, op: Read }
Commit(Fixed(0))
Call { tries: 9, object: 1, op: Take }
Call { tries: 1, object: 0, op: Swap(Kept { place: 1, add: 0 }) }
Child { tries: 2, node: 1, body: 0 }
Call { tries: 1, object: 1, op: Put(Kept { place: 3, add: 9223372036854775807 }) }
Call { tries: 1, object: 0, op: Write(Fixed(-9223372036854775808)) }
Commit(Kept { place: 4, add: -9223372036854775807 })
19 Begin { node: 1 }
20 Start { node: 2, body: 0 }
21 Ask { parent: 0, node: 2 }
22 Call { action: 0, object: 0, op: Write(-7) }
23 Call { action: 2, object: 1, op: Put(8) }
24 Call { action: 2, object: 1, op: Size }
25 Commit { action: 0, value: 4 }
26 Abort { action: 2 }
27 GiveUp { action: 0, child: 2 }
28 Go { action: 1 }
29 Deliver { letter: 4294967295 }
30 Cut { letter: 1, bytes: 0 }
31 Lose { letter: 7 }
32 Restart { node: 1 }
33 Drain
34 Play
35 Tell { node: 1, to: 2 }
36 Query { node: 2, action: 1 }
37 Stop { node: 2, calls: 1000 }
";
