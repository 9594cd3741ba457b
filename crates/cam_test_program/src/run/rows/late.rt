//! Letters that come too late to change anything.

pub(super) const ROWS: &str = "
== The call of a child that was given up comes when the parent has committed: it is not performed.
nodes 2
object x 2 register 0
begin P 1
ask P C 1
drain
call C x write 5
giveup P C
call P x write 6
deliver 3
deliver 4
commit P 0
deliver 5
deliver 6
deliver 7
deliver 8
deliver 9
deliver 10
deliver 2
--
action 1.1.1 committed
  created
  asked 1.1.1/1.1.1
  child 1.1.1/1.1.1 aborted
  called 1 x write 6
  got 1 ok
  commit 0
action 1.1.1/1.1.1 aborted
  created
  called 1 x write 5
value x 6
== An answer comes when its action has asked to abort.
nodes 2
object x 2 register 0
begin A 1
call A x read
abort A
deliver 1
deliver 3
--
action 1.1.1 open
  created
  called 1 x read
  abort
value x 0
== An answer comes when its action's home has crashed.
nodes 2
object x 2 register 0
begin A 1
call A x read
deliver 1
restart 1
deliver 2
--
action 1.1.1 open
  created
  called 1 x read
value x 0
== A child finishes when its parent has asked to abort.
nodes 2
begin P 1
ask P B 2
drain
commit B 0
abort P
deliver 2
--
action 1.1.1 open
  created
  asked 1.1.1/2.1.1
  abort
action 1.1.1/2.1.1 open
  created
  commit 0
== A child finishes when its parent's home has crashed.
nodes 2
begin P 1
ask P B 2
drain
commit B 0
restart 1
drain
--
action 1.1.1 open
  created
  asked 1.1.1/2.1.1
action 1.1.1/2.1.1 open
  created
  commit 0
== A top action finishes when its home has crashed.
nodes 1
begin A 1
commit A 0
restart 1
drain
--
action 1.1.1 open
  created
  commit 0
== A query that comes before its action has asked to commit changes nothing.
nodes 2
object x 2 register 0
begin A 1
call A x write 1
drain
query 2 A
drain
commit A 0
drain
--
action 1.1.1 committed
  created
  called 1 x write 1
  got 1 ok
  commit 0
value x 1
";
