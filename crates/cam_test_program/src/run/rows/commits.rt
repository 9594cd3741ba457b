//! Commits in two phases.

pub(super) const ROWS: &str = "
== An action writes, reads what it wrote, and commits.
nodes 2
object x 2 register 0
begin A 1
call A x write 5
drain
call A x read
drain
commit A 0
drain
--
action 1.1.1 committed
  created
  called 1 x write 5
  got 1 ok
  called 2 x read
  got 2 value 5
  commit 0
value x 5
== A node that has crashed since the write votes no, and the action aborts.
nodes 2
object x 2 register 0
begin A 1
call A x write 5
drain
restart 2
commit A 0
drain
--
action 1.1.1 aborted
  created
  called 1 x write 5
  got 1 ok
  commit 0
value x 0
== A node that voted yes keeps the lock through its crash, until the outcome comes.
nodes 2
object x 2 register 0
begin A 1
begin B 1
call A x read
drain
commit A 0
deliver 3
deliver 5
restart 2
call B x write 8
deliver 7
deliver 8
call B x write 8
deliver 9
deliver 10
drain
call B x write 8
drain
--
action 1.1.1 committed
  created
  called 1 x read
  got 1 value 0
  commit 0
action 1.1.2 open
  created
  called 1 x write 8
  got 1 gone
  called 2 x write 8
  got 2 busy 1.1.1
  called 3 x write 8
  got 3 ok
value x 0
== The vote is lost and its node crashes: asked again, it votes yes again.
nodes 2
object x 2 register 0
begin A 1
call A x write 5
drain
commit A 0
deliver 3
deliver 5
lose 6
restart 2
deliver 5
drain
--
action 1.1.1 committed
  created
  called 1 x write 5
  got 1 ok
  commit 0
value x 5
== A home that crashes before it decides aborts when a node asks it.
nodes 2
object x 2 register 0
begin A 1
call A x write 5
drain
commit A 0
deliver 3
deliver 5
restart 1
query 2 A
deliver 7
query 2 A
drain
query 2 A
--
action 1.1.1 aborted
  created
  called 1 x write 5
  got 1 ok
  commit 0
refused 14 L9
value x 0
";
