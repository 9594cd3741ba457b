//! Nodes that crash and restart.

pub(super) const ROWS: &str = "
== A crash drops a write that was not secured, and its lock.
nodes 2
object x 2 register 0
begin A 1
call A x write 5
drain
restart 2
begin B 1
call B x read
drain
call B x read
drain
--
action 1.1.1 open
  created
  called 1 x write 5
  got 1 ok
action 1.1.2 open
  created
  called 1 x read
  got 1 gone
  called 2 x read
  got 2 value 0
value x 0
== An answer is worth nothing where its node is known to have crashed since: the call is gone.
nodes 2
object x 2 register 0
begin A 1
call A x read
deliver 1
restart 2
tell 2 1
deliver 3
deliver 2
--
action 1.1.1 open
  created
  called 1 x read
  got 1 gone
value x 0
== A child is asked for at a node that has crashed before, unheard: it is not created.
nodes 2
restart 2
begin P 1
ask P B 2
commit B 0
drain
commit B 0
--
action 1.1.1 open
  created
  asked 1.1.1/2.1.1
  child 1.1.1/2.1.1 aborted
refused 5 L4
refused 7 L4
";
