//! Orphans by crashes: what they did, or a sibling did for them, was lost.

pub(super) const ROWS: &str = "
== A crash took what an action wrote; it is stopped as a node that has crashed too brings the news.
nodes 3
object x 2 register 0
object y 3 register 0
begin A 1
call A x write 1
drain
restart 2
tell 2 3
drain
restart 3
call A y read
drain
--
action 1.1.1 open
  created
  called 1 x write 1
  got 1 ok
  called 2 y read
stop 10 1.1.1 crash 2 1 2
value x 0
value y 0
== A crash took what a sibling wrote and handed on: the action is an orphan with it.
nodes 4
object x 2 register 0
begin L 1
ask L A 4
ask L B 1
drain
call B x write 3
drain
commit B 0
drain
restart 2
tell 2 4
tell 1 2
drain
call A x read
drain
--
action 1.1.1 open
  created
  asked 1.1.1/4.1.1
  asked 1.1.1/1.1.2
  child 1.1.1/1.1.2 committed 0
action 1.1.1/1.1.2 committed
  created
  called 1 x write 3
  got 1 ok
  commit 0
action 1.1.1/4.1.1 open
  created
  called 1 x read
stop 16 1.1.1/4.1.1 crash 2 1 2
stop 17 1.1.1/4.1.1 crash 2 1 2
value x 0
== A child has finished, but its home has crashed since: it is aborted.
nodes 2
begin P 1
ask P B 2
drain
commit B 0
restart 2
tell 2 1
deliver 3
deliver 2
--
action 1.1.1 open
  created
  asked 1.1.1/2.1.1
  child 1.1.1/2.1.1 aborted
action 1.1.1/2.1.1 aborted
  created
  commit 0
stop 7 1.1.1/2.1.1 crash 2 1 2
== A top action finishes, but a node where it wrote has crashed: it is aborted.
nodes 2
object x 2 register 0
begin A 1
call A x write 1
drain
commit A 0
restart 2
tell 2 1
deliver 4
deliver 3
drain
--
action 1.1.1 aborted
  created
  called 1 x write 1
  got 1 ok
  commit 0
stop 8 1.1.1 crash 2 1 2
value x 0
";
